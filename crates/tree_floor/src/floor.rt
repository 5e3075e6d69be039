//! The floor of a key, from the root of the tree down.

ghost use Rattle.std.specs.Prelude.{◌≡◌};
ghost use Rattle.tree_row.specs.tree_law.specs.FloorWalks.{node_told};

use crate::scan::{BYTES, Scan, Scanned, better_of, child_of, entry_count, first_entry};
use crate::words::{KEY_WORDS, ROOT, byte_of, is_at_most, is_prefix, key_with, word_of};
use cat_key::WORDS;
use pm_words::codes::reference::{KIND, LEAF};
use pm_words::offsets::cell::{DEPTH, PREFIX};
use pm_words::offsets::leaf;
use pm_words::{Action, Layout, Machine, Memory, Steps, Turn};
use radix_nodes::{KEY_BYTES, Key};
use std::sync::ledger::Ledger;

/// Reads the tree from its root, and answers the node of the greatest key that is at most its own, or 0 where no key
/// is. It takes no lock; beside a writer it answers some node.
///
/// `other` is the reference under the greatest byte below its key's, of the deepest cell that has one, or 0. There it
/// turns back to, where all keys that it comes to are greater than its own.
#[derive(Clone, Copy)]
pub struct Floor {
    pub layout: Layout,
    pub key: Key,
    pub other: u64,
    /// How deep the other is at least.
    pub other_least: u64,
    /// How deep what it comes to is at least.
    pub least: u64,
    /// All keys that it comes to are at most its own: it wants the last one.
    pub last: bool,
    pub at: FloorAt,
}

/// The word that it reads next, and what it has read of the leaf or the cell.
#[derive(Clone, Copy)]
pub enum FloorAt {
    Root,
    /// A word of a leaf's key, and the words before it.
    Key {
        leaf: u64,
        words: Key,
        word: u64,
    },
    /// The node word of a leaf that it answers.
    Node {
        leaf: u64,
    },
    Depth {
        cell: u64,
    },
    /// A word of a cell's prefix, and the words before it.
    Prefix {
        cell: u64,
        depth: u64,
        words: Key,
        word: u64,
    },
    /// A word of a cell, of the scan for this byte.
    Scanning {
        cell: u64,
        depth: u64,
        byte: u64,
        scan: Scan,
    },
}

impl Machine for Floor {
    ghost use Rattle.tree_floor.specs.Floors.{IsFloor, floor_asks, floor_turned, floor_takes, floor_left};

    type Answer = u64;

    ghost fits = { IsFloor };

    ghost asks = { floor_asks };

    ghost turned = { floor_turned };

    ghost takes = { floor_takes };

    ghost left = { floor_left };

    #[inline(always)]
    fn action(&self) -> Action {
        let layout = self.layout;
        let word = match self.at {
            FloorAt::Root => ROOT,
            FloorAt::Key { leaf, word, .. } => layout.leaf_word(leaf, word),
            FloorAt::Node { leaf } => layout.leaf_word(leaf, leaf::NODE),
            FloorAt::Depth { cell } => word_of(layout, cell, DEPTH),
            FloorAt::Prefix { cell, word, .. } => word_of(layout, cell, PREFIX + word),
            FloorAt::Scanning {
                cell,
                byte,
                scan,
                ..
            } => word_of(layout, cell, scan.offset(cell / KIND, byte)),
        };
        Action::Load(layout.cached(word))
    }

    fn resume(self, got: u64) -> Turn<Floor, u64> {
        let mut next = self;
        match next.advance(got) {
            None => Turn::Go(next),
            Some(node) => Turn::Done(node),
        }
    }
}

impl Floor {
    ghost use Rattle.std.specs.Prelude.{◌≡◌, ℕ, ◌<◌, ◌+◌, slice_set};
    ghost use Rattle.cat_key.specs.declared.TheConstants.{WORDS};
    ghost use Rattle.radix_nodes.specs.Keys.{key_bytes};
    ghost use Rattle.pm_words.specs.Layouts.{IsLayout};
    ghost use Rattle.pm_words.specs.Locations.{image_words, row_words, cached_address};
    ghost use Rattle.pm_words.specs.Turns.{AdvancesTo, turn_of};
    ghost use Rattle.pm_words.specs.declared.machine.Turn.TheVariants.{Done};
    ghost use Rattle.machine_runs.specs.Runs.{Bursts, MayGo};
    ghost use Rattle.tree_floor.specs.Floors.{IsFloor, IsCellOf, floor_asks, floor_left, floor_starts, floor_takes};
    ghost use Rattle.tree_floor.specs.Floors.{goes_to, lands, back, enters, scans, has_key, has_key_word, has_depth};
    ghost use Rattle.tree_floor.specs.Floors.{floor_turned, has_prefix, has_prefix_word, has_scanned};
    ghost use Rattle.tree_floor.specs.FloorRuns.{MayFloor, FloorBursts, Skims, key_loaded, key_at};
    ghost use Rattle.tree_floor.specs.declared.floor.FloorAt.TheVariants as FloorAt;

    /// The floor of this key.
    pub fn new(layout: Layout, key: Key) -> Floor
        requires { IsLayout layout }
        ensures start { result ≡ floor_starts layout key }
        ensures sound { IsFloor result }
    {
        Floor {
            layout,
            key,
            other: 0,
            other_least: 0,
            least: 0,
            last: false,
            at: FloorAt::Root,
        }
    }

    /// Tells it in place the word that it asked for. It goes on, or is done where there is an answer.
    #[inline(always)]
    pub fn advance(&mut self, got: u64) -> Option<u64>
        requires { floor_takes self.old got }
        ensures { AdvancesTo (floor_turned self.old got) self.new result }
    {
        match self.at {
            FloorAt::Root => self.enters(got),
            FloorAt::Key { leaf, words, word } => {
                self.has_key_word(leaf, key_with(words, word, got), word + 1)
            }
            FloorAt::Node { .. } => Some(node_told(self.layout.nodes(), got)),
            FloorAt::Depth { cell } => self.has_depth(cell, got),
            FloorAt::Prefix {
                cell,
                depth,
                words,
                word,
            } => self.has_prefix_word(cell, depth, key_with(words, word, got), word + 1),
            FloorAt::Scanning {
                cell,
                depth,
                byte,
                scan,
            } => self.has_scanned(cell, depth, byte, scan.told(cell / KIND, byte, got)),
        }
    }

    /// Does what it asks for until it has its answer, with nothing between. `steps` counts the events.
    pub fn run<L: Ledger>(&mut self, memory: &mut Memory, steps: &mut Steps<L>) -> u64
        requires { MayGo floor_asks floor_turned floor_left floor_takes memory.old.layout memory.old.words self.old }
        ensures { Bursts floor_asks floor_turned floor_left memory.old memory.new self.old (Done result) steps.old
            steps.new }
    {
        'parts: loop {
            if let Some(node) = self.reads(memory, steps) {
                return node;
            }
        }
    }

    /// Does what it asks for, and of a leaf's key loads all three words. It goes on, or is done where there is an
    /// answer.
    fn reads<L: Ledger>(&mut self, memory: &mut Memory, steps: &mut Steps<L>) -> Option<u64>
        requires { MayGo floor_asks floor_turned floor_left floor_takes memory.old.layout memory.old.words self.old }
        ensures { Bursts floor_asks floor_turned floor_left memory.old memory.new self.old
            (turn_of self.new result) steps.old steps.new }
    {
        match self.at {
            FloorAt::Root => {
                let reference = memory.act(Action::Load(self.layout.cached(ROOT)), steps);
                self.enters(reference)
            }
            FloorAt::Key { leaf, word: 0, .. } => {
                let key = self.loads_key(self.layout.leaf_word(leaf, leaf::KEY), memory, steps);
                self.has_key(leaf, key)
            }
            FloorAt::Node { leaf } => {
                let word = self.layout.leaf_word(leaf, leaf::NODE);
                let got = memory.act(Action::Load(self.layout.cached(word)), steps);
                Some(node_told(self.layout.nodes(), got))
            }
            _ => self.reads_cell(memory, steps),
        }
    }

    /// Does what it asks for, and loads all three words of a cell's prefix, and all of its entries. It goes on, or is
    /// done where there is an answer.
    fn reads_cell<L: Ledger>(&mut self, memory: &mut Memory, steps: &mut Steps<L>) -> Option<u64>
        requires { MayGo floor_asks floor_turned floor_left floor_takes memory.old.layout memory.old.words self.old }
        ensures { Bursts floor_asks floor_turned floor_left memory.old memory.new self.old
            (turn_of self.new result) steps.old steps.new }
    {
        match self.at {
            FloorAt::Depth { cell } => {
                let word = word_of(self.layout, cell, DEPTH);
                let depth = memory.act(Action::Load(self.layout.cached(word)), steps);
                self.has_depth(cell, depth)
            }
            FloorAt::Prefix {
                cell,
                depth,
                word: 0,
                ..
            } => {
                let prefix = self.loads_key(word_of(self.layout, cell, PREFIX), memory, steps);
                self.has_prefix(cell, depth, prefix)
            }
            FloorAt::Scanning {
                cell,
                depth,
                byte,
                scan,
            } => {
                let scanned = self.seeks(cell, byte, scan, memory, steps);
                self.has_scanned(cell, depth, byte, scanned)
            }
            _ => {
                let got = memory.act(self.action(), steps);
                self.advance(got)
            }
        }
    }

    /// What its scan has read of the cell with one word more, or with all entries.
    fn seeks<L: Ledger>(
        &self,
        cell: u64,
        byte: u64,
        scan: Scan,
        memory: &mut Memory,
        steps: &mut Steps<L>,
    ) -> Scanned
        requires { (depth : ℕ) × MayFloor memory.old self.now (FloorAt.Scanning cell depth byte scan) }
        ensures { (depth : ℕ) → MayFloor memory.old self.now (FloorAt.Scanning cell depth byte scan)
            → FloorBursts memory.old memory.new self.now (FloorAt.Scanning cell depth byte scan)
            (has_scanned self.now cell depth byte result) steps.old steps.new }
    {
        let kind = cell / KIND;
        let scan = self.skims(cell, byte, scan, memory, steps);
        let word = word_of(self.layout, cell, scan.offset(kind, byte));
        let got = memory.act(Action::Load(self.layout.cached(word)), steps);
        scan.told(kind, byte, got)
    }

    /// Its scan once all entries but the last are read, where it reads entries.
    fn skims<L: Ledger>(
        &self,
        cell: u64,
        byte: u64,
        scan: Scan,
        memory: &mut Memory,
        steps: &mut Steps<L>,
    ) -> Scan
        requires { (depth : ℕ) × MayFloor memory.old self.now (FloorAt.Scanning cell depth byte scan) }
        ensures { (depth : ℕ) → MayFloor memory.old self.now (FloorAt.Scanning cell depth byte scan)
            → Skims memory.old memory.new self.now cell depth byte scan result steps.old steps.new }
    {
        let Scan::Entry {
            mut entry,
            mut child,
            mut below,
        } = scan
        else {
            return scan;
        };
        let kind = cell / KIND;
        let first = word_of(self.layout, cell, first_entry(kind));
        'entries: while entry + 1 < entry_count(kind) {
            let got = memory.act(Action::Load(self.layout.cached(first + entry)), steps);
            child = child_of(byte, child, got);
            below = better_of(byte, below, got);
            entry += 1;
        }
        Scan::Entry {
            entry,
            child,
            below,
        }
    }

    /// Three image words from this one on.
    fn loads_key<L: Ledger>(&self, word: u64, memory: &mut Memory, steps: &mut Steps<L>) -> Key
        requires layout { IsLayout self.now.layout }
        requires range { word + 2 < image_words self.now.layout }
        requires within { cached_address self.now.layout (word + 2) < row_words memory.old.layout }
        ensures row { memory.new ≡ record memory.old {
          words = key_loaded self.now.layout word memory.old.layout memory.old.words;
        } }
        ensures key { result ≡ key_at self.now.layout word memory.old.layout memory.old.words }
        ensures steps { steps.new ≡ steps.old + 3 }
    {
        let first = memory.act(Action::Load(self.layout.cached(word)), steps);
        let second = memory.act(Action::Load(self.layout.cached(word + 1)), steps);
        let third = memory.act(Action::Load(self.layout.cached(word + 2)), steps);
        [first, second, third]
    }

    fn goes_to(&mut self, at: FloorAt) -> Option<u64>
        ensures { AdvancesTo (goes_to self.old at) self.new result }
    {
        self.at = at;
        None
    }

    /// It comes to a reference that isn't 0.
    fn lands(&mut self, reference: u64) -> Option<u64>
        requires { IsLayout self.old.layout }
        ensures { AdvancesTo (lands self.old reference) self.new result }
    {
        let kind = reference / KIND;
        let number = reference % KIND;
        if number >= self.layout.leaf_count() {
            return Some(0);
        }
        if kind == LEAF {
            let at = if self.last {
                FloorAt::Node { leaf: number }
            } else {
                FloorAt::Key {
                    leaf: number,
                    words: [0; WORDS],
                    word: 0,
                }
            };
            return self.goes_to(at);
        }
        if 2 <= kind && kind <= 5 {
            return self.goes_to(FloorAt::Depth { cell: reference });
        }
        Some(0)
    }

    /// All keys here are greater: it goes to the other reference, and wants the last leaf there.
    fn back(&mut self) -> Option<u64>
        requires { IsLayout self.old.layout }
        ensures { AdvancesTo (back self.old) self.new result }
    {
        if self.last || self.other == 0 {
            return Some(0);
        }
        let other = self.other;
        self.other = 0;
        self.least = self.other_least;
        self.other_least = 0;
        self.last = true;
        self.lands(other)
    }

    /// It comes to a reference.
    fn enters(&mut self, reference: u64) -> Option<u64>
        requires { IsLayout self.old.layout }
        ensures { AdvancesTo (enters self.old reference) self.new result }
    {
        if reference == 0 {
            return self.back();
        }
        self.lands(reference)
    }

    /// It has read so many words of a leaf's key.
    fn has_key_word(&mut self, leaf: u64, words: Key, count: u64) -> Option<u64>
        requires { IsLayout self.old.layout }
        ensures { AdvancesTo (has_key_word self.old leaf words count) self.new result }
    {
        if count == KEY_WORDS {
            return self.has_key(leaf, words);
        }
        self.goes_to(FloorAt::Key {
            leaf,
            words,
            word: count,
        })
    }

    fn has_key(&mut self, leaf: u64, key: Key) -> Option<u64>
        requires { IsLayout self.old.layout }
        ensures { AdvancesTo (has_key self.old leaf key) self.new result }
    {
        if is_at_most(key, self.key) {
            return self.goes_to(FloorAt::Node { leaf });
        }
        self.back()
    }

    fn scans(&mut self, cell: u64, depth: u64, byte: u64) -> Option<u64>
        requires { IsCellOf self.old.layout cell }
        ensures { AdvancesTo (scans self.old cell depth byte) self.new result }
    {
        let scan = Scan::of(cell / KIND, byte);
        self.goes_to(FloorAt::Scanning {
            cell,
            depth,
            byte,
            scan,
        })
    }

    /// It has read the depth of a cell.
    fn has_depth(&mut self, cell: u64, depth: u64) -> Option<u64>
        requires { IsCellOf self.old.layout cell }
        ensures { AdvancesTo (has_depth self.old cell depth) self.new result }
    {
        if depth < self.least || KEY_BYTES <= depth {
            return Some(0);
        }
        if self.last {
            return self.scans(cell, depth, BYTES);
        }
        self.goes_to(FloorAt::Prefix {
            cell,
            depth,
            words: [0; WORDS],
            word: 0,
        })
    }

    /// It has read so many words of a cell's prefix.
    fn has_prefix_word(&mut self, cell: u64, depth: u64, words: Key, count: u64) -> Option<u64>
        requires layout { IsLayout self.old.layout }
        requires cell { IsCellOf self.old.layout cell }
        requires depth { depth < key_bytes }
        ensures { AdvancesTo (has_prefix_word self.old cell depth words count) self.new result }
    {
        if count == KEY_WORDS {
            return self.has_prefix(cell, depth, words);
        }
        self.goes_to(FloorAt::Prefix {
            cell,
            depth,
            words,
            word: count,
        })
    }

    /// A greater prefix: all keys there are greater. Its own key's: it goes on by the next byte. Else all are less.
    #[inline(always)]
    fn has_prefix(&mut self, cell: u64, depth: u64, prefix: Key) -> Option<u64>
        requires layout { IsLayout self.old.layout }
        requires cell { IsCellOf self.old.layout cell }
        requires depth { depth < key_bytes }
        ensures { AdvancesTo (has_prefix self.old cell depth prefix) self.new result }
    {
        if !is_at_most(prefix, self.key) {
            return self.back();
        }
        if is_prefix(prefix, depth, self.key) {
            let byte = byte_of(self.key, depth);
            return self.scans(cell, depth, byte);
        }
        self.other = 0;
        self.other_least = 0;
        self.last = true;
        self.scans(cell, depth, BYTES)
    }

    /// It has read more of a cell.
    #[inline(always)]
    fn has_scanned(&mut self, cell: u64, depth: u64, byte: u64, scanned: Scanned) -> Option<u64>
        requires layout { IsLayout self.old.layout }
        requires depth { depth < key_bytes }
        ensures { AdvancesTo (has_scanned self.old cell depth byte scanned) self.new result }
    {
        match scanned {
            Scanned::More(scan) => self.goes_to(FloorAt::Scanning {
                cell,
                depth,
                byte,
                scan,
            }),
            Scanned::Found { child, below } => {
                self.least = depth + 1;
                if self.last {
                    self.other = 0;
                    self.other_least = 0;
                    return self.enters(below);
                }
                if below != 0 {
                    self.other = below;
                    self.other_least = depth + 1;
                }
                self.enters(child)
            }
        }
    }
}

/// The node to which a node word leads, or node 0 where it leads to none.
fn node_told(nodes: u64, word: u64) -> u64
    ensures { result ≡ node_told nodes word }
{
    if word == 0 || nodes < word {
        0
    } else {
        word - 1
    }
}
