//! The look-up with which every call begins. Its states, in order:
//!
//! - `Floor`: it reads the search layer, for the node with which the walk is to begin. Whichever that is, what it finds
//! is the same: only the walk says which node is its name's.
//! - `Walk`: it walks from there to the node of its name; locked nodes and too many hops end it, and for a write so
//! does a target that is worn.
//! - `Read`: a read takes no lock, and loads the clock. What it loads from there on may be torn by others, so whoever
//! reads loads the version word again at last.
//! - `Lock`: a write exchanges the version word that the walk saw for a locked one; another word there ends it.
//! - `Clock`: it loads the clock. Where that has reached the limit, it gives the node back in `Spent` and ends.
//! - `Bitmap`, `Prints`: it loads the bitmap and the eight words of fingerprints.
//! - `Name`: it compares the words of the name with those of each live slot that has its fingerprint, one load each.
//! - `Value`: it loads the value of the slot that has the name.
//!
//! It ends with what it found. A write has the lock still; a read has the version word that it has to find again.

ghost use Rattle.std.specs.Prelude.{◌≡◌, ℕ};

use crate::call::{Call, slot_word};
use call_stages::{Once, Placed};
use cat_key::WORDS;
use data_list::{Sighting, Target, Walk, Walked};
use data_node::{PRINT_WORDS, candidates, lowest_live, without_live};
use pm_words::offsets::node;
use pm_words::offsets::shared::CLOCK;
use pm_words::{Action, Again, Machine, Memory, Steps};
use std::sync::ledger::Ledger;
use tree_floor::Floor;
use version_lock::{freed_of, locked_of};

/// What a call has of its node: the version word, which a write has locked and a read has seen free, and the clock that
/// was loaded then.
#[derive(Clone, Copy)]
pub struct Hold {
    pub locked: u64,
    pub clock: u64,
}

/// The words of a node that tell of its slots: the bitmap of live slots, and the fingerprints.
#[derive(Clone, Copy)]
pub struct Directory {
    pub bitmap: u64,
    pub prints: [u64; PRINT_WORDS],
}

/// The slot that has a name, and its value.
#[derive(Clone, Copy)]
pub struct Hit {
    pub slot: u64,
    pub value: u64,
}

impl Hit {
    ghost use Rattle.std.specs.Prelude.{◌≡◌};
    ghost use Rattle.node_ops.specs.LookupSteps.{value_of};

    /// What a name has, if a slot has it.
    pub(crate) fn value_of(hit: Option<Hit>) -> Option<u64>
        ensures { result ≡ value_of hit }
    {
        hit.map(|hit| hit.value)
    }
}

/// What a look-up found: under the lock, which it still has, or by words that count only where a read finds the version
/// word again.
#[derive(Clone, Copy)]
pub struct Found {
    pub hold: Hold,
    pub directory: Directory,
    pub hit: Option<Hit>,
}

/// How a look-up ended: the call is over without a place, or goes on with what was found.
#[derive(Clone, Copy)]
pub enum Looked {
    Early(Once<Placed>),
    Found(Found),
}

/// It walks to the node of its name, which a write locks, loads the clock, and looks for the live slot with the call's
/// name: it compares the name with those of the slots whose fingerprints agree.
///
/// The walk begins at the floor of the name in the search layer, whose loads come first.
#[derive(Clone, Copy)]
pub struct Lookup {
    pub call: Call,
    pub at: LookupAt,
}

/// What it does next.
#[derive(Clone, Copy)]
pub enum LookupAt {
    Floor {
        floor: Floor,
    },
    Walk {
        walk: Walk,
    },
    /// It takes no lock, and loads the clock.
    Read {
        seen: Sighting,
    },
    /// It takes the lock, by an exchange of the version word that the walk saw.
    Lock {
        seen: Sighting,
        locked: u64,
    },
    Clock {
        locked: u64,
    },
    /// The clock has reached the limit: it gives the node back.
    Spent {
        hold: Hold,
    },
    Bitmap {
        hold: Hold,
    },
    Prints {
        hold: Hold,
        bitmap: u64,
        prints: [u64; PRINT_WORDS],
        at: u64,
    },
    /// It compares one word of the name in `slot`. The slots in `left` are still to be compared, this one among them.
    Name {
        hold: Hold,
        directory: Directory,
        left: u64,
        slot: u64,
        at: u64,
    },
    Value {
        hold: Hold,
        directory: Directory,
        slot: u64,
    },
}

impl Lookup {
    ghost use Rattle.std.specs.Prelude.{◌≡◌, ℕ, ◌+◌, ◌^◌, ◌<◌, ◌≤◌, List, Some, IfSome};
    ghost use Rattle.std.specs.Prelude.{replicate, slice_set};
    ghost use Rattle.pm_words.specs.Turns.{AdvancesTo, GoesBelow};
    ghost use Rattle.pm_words.specs.Layouts.{IsLayout};
    ghost use Rattle.pm_words.specs.declared.machine.Turn.TheVariants.{Go, Done};
    ghost use Rattle.data_node.specs.Bits.{without_live};
    ghost use Rattle.data_node.specs.Slots.{IsLive};
    ghost use Rattle.data_list.specs.Walks.{walk_turned};
    ghost use Rattle.version_lock.specs.Versions.{generation_of, IsFree};
    ghost use Rattle.node_ops.specs.Calls.{IsCall};
    ghost use Rattle.node_ops.specs.LookupSteps.{IsLookup, starts, floored, walked_on, came_to, tried_lock, saw_clock};
    ghost use Rattle.node_ops.specs.LookupSteps.{saw_prints, saw_directory, saw_name, next_candidate, goes_to, finds};
    ghost use Rattle.node_ops.specs.LookupSteps.{lookup_asks, lookup_left, lookup_takes, lookup_turned};
    ghost use Rattle.machine_runs.specs.Runs.{MayGo};
    ghost use Rattle.node_ops.specs.Looking.{LooksFrom, MayLookFrom, LoadsPrints, MayLoadPrints, Compares, MayCompare};
    ghost use Rattle.node_ops.specs.Looking.{ComparesIn, MayCompareIn, Locks, MayLock, MayWork, Works};
    ghost use Rattle.node_ops.specs.Bursts.{LookupBursts};

    pub(crate) fn new(call: Call) -> Lookup
        requires { IsCall call }
        ensures new { result ≡ starts call }
        ensures sound { IsLookup result }
    {
        Lookup {
            call,
            at: LookupAt::Floor {
                floor: Floor::new(call.view.layout, call.name),
            },
        }
    }

    /// The action that it asks for.
    #[inline(always)]
    pub(crate) fn action(&self) -> Action
        requires { IsLookup self.now }
        ensures { result ≡ lookup_asks self.now }
    {
        let call = &self.call;
        match &self.at {
            LookupAt::Floor { floor } => floor.action(),
            LookupAt::Walk { walk } => walk.action(),
            LookupAt::Lock { seen, locked } => {
                Action::Exchange(call.address(node::VERSION), seen.version, *locked)
            }
            LookupAt::Read { .. } | LookupAt::Clock { .. } => Action::Load(CLOCK),
            LookupAt::Spent { hold } => {
                Action::Store(call.address(node::VERSION), freed_of(hold.locked))
            }
            LookupAt::Bitmap { .. } => Action::Load(call.address(node::BITMAP)),
            LookupAt::Prints { at, .. } => Action::Load(call.address(node::PRINTS + *at)),
            LookupAt::Name { slot, at, .. } => Action::Load(call.address(slot_word(*slot, *at))),
            LookupAt::Value { slot, .. } => Action::Load(call.address(slot_word(
                *slot,
                WORDS as u64,
            ))),
        }
    }

    /// Tells it in place the number that its action gave. It goes on, or is done where there is an answer.
    #[inline(always)]
    pub(crate) fn advance(&mut self, got: u64) -> Option<Looked>
        requires { lookup_takes self.old got }
        ensures turned { AdvancesTo (lookup_turned self.old got) self.new result }
        ensures fewer { GoesBelow lookup_left (lookup_left self.old) (lookup_turned self.old got) }
        ensures call { IfSome result (λ _. self.new.call ≡ self.old.call) }
    {
        match &mut self.at {
            LookupAt::Floor { floor } => {
                let node = floor.advance(got)?;
                self.floored(node)
            }
            LookupAt::Walk { .. } => self.walked(got),
            LookupAt::Read { seen } => {
                let locked = seen.version;
                self.dated(Hold { locked, clock: got })
            }
            LookupAt::Lock { seen, locked } => {
                let (version, locked) = (seen.version, *locked);
                self.tried_lock(version, locked, got)
            }
            LookupAt::Clock { locked } => {
                let locked = *locked;
                self.saw_clock(Hold { locked, clock: got })
            }
            LookupAt::Spent { hold } => Some(Looked::Early(Once::Spent { clock: hold.clock })),
            LookupAt::Bitmap { hold } => {
                let hold = *hold;
                self.saw_bitmap(hold, got)
            }
            LookupAt::Prints { .. } => self.saw_prints(got),
            LookupAt::Name { .. } => self.saw_name(got),
            LookupAt::Value { .. } => self.saw_value(got),
        }
    }

    /// Does what it asks for with nothing between: where it begins, until it has its answer, else one turn. It goes on,
    /// or is done where there is an answer. `steps` counts the events.
    pub(crate) fn burst<L: Ledger>(
        &mut self,
        memory: &mut Memory,
        steps: &mut Steps<L>,
    ) -> Option<Looked>
        requires { MayGo lookup_asks lookup_turned lookup_left lookup_takes memory.old.layout memory.old.words
            self.old }
        ensures { LookupBursts memory.old memory.new self.old self.new result steps.old steps.new }
    {
        let LookupAt::Floor { floor } = &mut self.at else {
            return self.turns(memory, steps);
        };
        let node = floor.run(memory, steps);
        Some(self.walks(node, memory, steps))
    }

    /// One turn.
    fn turns<L: Ledger>(&mut self, memory: &mut Memory, steps: &mut Steps<L>) -> Option<Looked>
        requires { MayGo lookup_asks lookup_turned lookup_left lookup_takes memory.old.layout memory.old.words
            self.old }
        ensures { LookupBursts memory.old memory.new self.old self.new result steps.old steps.new }
    {
        let got = memory.act(self.action(), steps);
        self.advance(got)
    }

    /// It walks from the node that the layer leads to, and looks its name up at the node of that.
    fn walks<L: Ledger>(&mut self, node: u64, memory: &mut Memory, steps: &mut Steps<L>) -> Looked
        requires layout { IsLayout self.old.call.view.layout }
        requires node { node < self.old.call.view.layout.nodes }
        requires may { MayLookFrom memory.old (floored self.old.call (Done node)) }
        ensures { LooksFrom memory.old memory.new self.old.call (floored self.old.call (Done node)) self.new.call result
            steps.old steps.new }
    {
        let view = self.call.view;
        let mut walk = Walk::new(view.layout, view.generation, node, self.call.name);
        match walk.comes(memory, steps) {
            Err(why) => Looked::Early(Once::Again(why)),
            Ok(version) => self.works(walk.node(), walk.hops(), version, memory, steps),
        }
    }

    /// It is at the node of its name, which a write locks first.
    fn works<L: Ledger>(
        &mut self,
        node: u64,
        hops: u64,
        version: u64,
        memory: &mut Memory,
        steps: &mut Steps<L>,
    ) -> Looked
        requires known { generation_of version ≤ self.old.call.view.generation }
        requires free { IsFree version self.old.call.view.generation }
        requires in_range { self.old.call.view.generation < 2 ^ 24 }
        requires may { MayWork memory.old self.old.call node hops version }
        ensures { Works memory.old memory.new self.old.call node hops version self.new.call result steps.old steps.new }
    {
        let Some(limit) = self.call.limit else {
            self.call.node = node;
            self.call.hops = hops;
            let clock = memory.act(Action::Load(CLOCK), steps);
            let locked = version;
            return self.finds(Hold { locked, clock }, memory, steps);
        };
        let Some(locked) = locked_of(version, self.call.view.generation) else {
            return Looked::Early(Once::Worn {
                node,
                word: version,
            });
        };
        self.call.node = node;
        self.call.hops = hops;
        self.locks(version, locked, limit, memory, steps)
    }

    /// It locks its node, and loads the clock: where that has reached the limit, it gives the node back.
    fn locks<L: Ledger>(
        &self,
        version: u64,
        locked: u64,
        limit: u64,
        memory: &mut Memory,
        steps: &mut Steps<L>,
    ) -> Looked
        requires limit { self.now.call.limit ≡ Some limit }
        requires may { MayLock memory.old self.now.call version locked }
        ensures { Locks memory.old memory.new self.now.call version locked result steps.old steps.new }
    {
        let address = self.call.address(node::VERSION);
        let found = memory.act(Action::Exchange(address, version, locked), steps);
        if found != version {
            return Looked::Early(Once::Again(Again::Moved {
                node: self.call.node,
                first: version,
                second: found,
            }));
        }
        let clock = memory.act(Action::Load(CLOCK), steps);
        if clock >= limit {
            memory.act(Action::Store(address, freed_of(locked)), steps);
            return Looked::Early(Once::Spent { clock });
        }
        self.finds(Hold { locked, clock }, memory, steps)
    }

    /// It looks for the live slot with its name.
    fn finds<L: Ledger>(&self, hold: Hold, memory: &mut Memory, steps: &mut Steps<L>) -> Looked
        requires { MayLookFrom memory.old (goes_to self.now.call (LookupAt.Bitmap hold)) }
        ensures { LooksFrom memory.old memory.new self.now.call (goes_to self.now.call (LookupAt.Bitmap hold))
            self.now.call result steps.old steps.new }
    {
        let bitmap = memory.act(Action::Load(self.call.address(node::BITMAP)), steps);
        let prints = self.loads_prints(memory, steps);
        let slots = self.call.view.layout.slots();
        let left = candidates(bitmap, &prints, self.call.print, slots);
        let hit = self.compares(left, memory, steps);
        let directory = Directory { bitmap, prints };
        Looked::Found(Found {
            hold,
            directory,
            hit,
        })
    }

    /// It loads all fingerprints.
    fn loads_prints<L: Ledger>(
        &self,
        memory: &mut Memory,
        steps: &mut Steps<L>,
    ) -> [u64; PRINT_WORDS]
        requires { MayLoadPrints memory.old self.now.call }
        ensures { LoadsPrints memory.old memory.new self.now.call result steps.old steps.new }
    {
        let first = self.call.address(node::PRINTS);
        let mut prints = [0; PRINT_WORDS];
        for at in 0..PRINT_WORDS {
            prints[at] = memory.act(Action::Load(first + at as u64), steps);
        }
        prints
    }

    /// It compares its name with those of the candidates, and loads the value of the one that has it.
    fn compares<L: Ledger>(
        &self,
        candidates: u64,
        memory: &mut Memory,
        steps: &mut Steps<L>,
    ) -> Option<Hit>
        requires { MayCompare memory.old self.now.call candidates }
        ensures { Compares memory.old memory.new self.now.call candidates result steps.old steps.new }
    {
        let mut left = candidates;
        'slots: loop {
            let Some(slot) = lowest_live(left) else {
                return None;
            };
            if self.has_name_in(slot, memory, steps) {
                let address = self.call.address(slot_word(slot, WORDS as u64));
                let value = memory.act(Action::Load(address), steps);
                return Some(Hit { slot, value });
            }
            left = without_live(left, slot);
        }
    }

    /// Whether the slot has its name, of which it loads the words up to the first that differs.
    fn has_name_in<L: Ledger>(&self, slot: u64, memory: &mut Memory, steps: &mut Steps<L>) -> bool
        requires { MayCompareIn memory.old self.now.call slot }
        ensures { ComparesIn memory.old memory.new self.now.call slot result steps.old steps.new }
    {
        let first = self.call.address(slot_word(slot, 0));
        for at in 0..WORDS {
            if memory.act(Action::Load(first + at as u64), steps) != self.call.name[at] {
                return false;
            }
        }
        true
    }

    /// It walks from the node that the layer leads to.
    fn floored(&mut self, node: u64) -> Option<Looked>
        requires layout { IsLayout self.old.call.view.layout }
        requires node { node < self.old.call.view.layout.nodes }
        ensures advances { AdvancesTo (floored self.old.call (Done node)) self.new result }
        ensures call { IfSome result (λ _. self.new.call ≡ self.old.call) }
    {
        let view = self.call.view;
        let walk = Walk::new(view.layout, view.generation, node, self.call.name);
        self.at = LookupAt::Walk { walk };
        None
    }

    /// Where it walks, it has one word more, and at the end of the walk it knows its target.
    #[inline(always)]
    fn walked(&mut self, got: u64) -> Option<Looked>
        requires takes { lookup_takes self.old got }
        ensures advances { (walk : Walk) → self.old.at ≡ LookupAt.Walk walk
            → AdvancesTo (walked_on self.old.call (walk_turned walk got)) self.new result }
        ensures fewer { (walk : Walk) → self.old.at ≡ LookupAt.Walk walk
            → GoesBelow lookup_left (lookup_left self.old) (walked_on self.old.call (walk_turned walk got)) }
        ensures call { IfSome result (λ _. self.new.call ≡ self.old.call) }
    {
        let LookupAt::Walk { walk } = &mut self.at else {
            return None;
        };
        match walk.advance(got) {
            None => None,
            Some(Walked::Again(why)) => Some(Looked::Early(Once::Again(why))),
            Some(Walked::Target(target)) => self.came_to(target),
        }
    }

    /// It is at the node of its name, which a write locks next.
    fn came_to(&mut self, target: Target) -> Option<Looked>
        requires known { generation_of target.version ≤ self.old.call.view.generation }
        requires free { IsFree target.version self.old.call.view.generation }
        requires in_range { self.old.call.view.generation < 2 ^ 24 }
        ensures advances { AdvancesTo (came_to self.old.call target) self.new result }
        ensures call { IfSome result (λ _. self.new.call ≡ self.old.call) }
    {
        let Target { node, hops, .. } = target;
        let seen = target.sighting();
        if self.call.limit.is_none() {
            self.call.node = node;
            self.call.hops = hops;
            self.at = LookupAt::Read { seen };
            return None;
        }
        let Some(locked) = locked_of(seen.version, self.call.view.generation) else {
            return Some(Looked::Early(Once::Worn {
                node,
                word: seen.version,
            }));
        };
        self.call.node = node;
        self.call.hops = hops;
        self.at = LookupAt::Lock { seen, locked };
        None
    }

    fn tried_lock(&mut self, version: u64, locked: u64, found: u64) -> Option<Looked>
        ensures advances { AdvancesTo (tried_lock self.old.call version locked found) self.new result }
        ensures call { self.new.call ≡ self.old.call }
    {
        if found == version {
            self.at = LookupAt::Clock { locked };
            return None;
        }
        Some(Looked::Early(Once::Again(Again::Moved {
            node: self.call.node,
            first: version,
            second: found,
        })))
    }

    fn saw_clock(&mut self, hold: Hold) -> Option<Looked>
        ensures advances { AdvancesTo (saw_clock self.old.call hold) self.new result }
        ensures call { self.new.call ≡ self.old.call }
    {
        self.at = match self.call.limit {
            Some(limit) if hold.clock >= limit => LookupAt::Spent { hold },
            _ => LookupAt::Bitmap { hold },
        };
        None
    }

    /// It has the clock, and loads the bitmap next.
    fn dated(&mut self, hold: Hold) -> Option<Looked>
        ensures advances { AdvancesTo (goes_to self.old.call (LookupAt.Bitmap hold)) self.new result }
        ensures call { self.new.call ≡ self.old.call }
    {
        self.at = LookupAt::Bitmap { hold };
        None
    }

    /// It has the bitmap, and loads the fingerprints next.
    fn saw_bitmap(&mut self, hold: Hold, bitmap: u64) -> Option<Looked>
        ensures advances { AdvancesTo (goes_to self.old.call (LookupAt.Prints hold bitmap (replicate 8 0) 0)) self.new
            result }
        ensures call { self.new.call ≡ self.old.call }
    {
        self.at = LookupAt::Prints {
            hold,
            bitmap,
            prints: [0; PRINT_WORDS],
            at: 0,
        };
        None
    }

    /// Where it loads fingerprints, it has one word more of them, and after the last it knows the candidates.
    #[inline(always)]
    fn saw_prints(&mut self, word: u64) -> Option<Looked>
        requires here { IsLookup self.old }
        ensures advances { (hold : Hold) (bitmap : ℕ) (prints : List ℕ) (k : ℕ)
            → self.old.at ≡ LookupAt.Prints hold bitmap prints k
            → AdvancesTo (saw_prints self.old.call hold bitmap prints k word) self.new result }
        ensures call { self.new.call ≡ self.old.call }
    {
        let LookupAt::Prints { at, .. } = &self.at else {
            return None;
        };
        let at = *at;
        if at + 1 < PRINT_WORDS as u64 {
            self.has_print(word);
            return None;
        }
        if let LookupAt::Prints { prints, .. } = &mut self.at {
            prints[at as usize] = word;
        }
        self.has_prints()
    }

    /// Where it loads fingerprints, it has one word more of them, and loads the next.
    fn has_print(&mut self, word: u64)
        requires here { IsLookup self.old }
        ensures at { (hold : Hold) (bitmap : ℕ) (prints : List ℕ) (k : ℕ)
            → self.old.at ≡ LookupAt.Prints hold bitmap prints k
            → self.new.at ≡ LookupAt.Prints hold bitmap (slice_set prints k word) (k + 1) }
        ensures call { self.new.call ≡ self.old.call }
    {
        let LookupAt::Prints { at, .. } = &self.at else {
            return;
        };
        let at = *at;
        if let LookupAt::Prints { prints, .. } = &mut self.at {
            prints[at as usize] = word;
        }
        if let LookupAt::Prints { at, .. } = &mut self.at {
            *at += 1;
        }
    }

    /// Where it has all fingerprints, it goes on with the candidates.
    fn has_prints(&mut self) -> Option<Looked>
        requires layout { IsLayout self.old.call.view.layout }
        ensures advances { (hold : Hold) (bitmap : ℕ) (prints : List ℕ) (k : ℕ)
            → self.old.at ≡ LookupAt.Prints hold bitmap prints k
            → AdvancesTo (saw_directory self.old.call hold (record { bitmap = bitmap; prints = prints })) self.new
            result }
        ensures call { self.new.call ≡ self.old.call }
    {
        let LookupAt::Prints {
            hold,
            bitmap,
            prints,
            ..
        } = &self.at
        else {
            return None;
        };
        let hold = *hold;
        let directory = Directory {
            bitmap: *bitmap,
            prints: *prints,
        };
        let slots = self.call.view.layout.slots();
        let left = candidates(directory.bitmap, &directory.prints, self.call.print, slots);
        self.next_candidate(hold, directory, left)
    }

    /// Where it compares names, it has one word more of the slot's.
    fn saw_name(&mut self, word: u64) -> Option<Looked>
        requires here { IsLookup self.old }
        ensures advances { (hold : Hold) (directory : Directory) (left slot k : ℕ)
            → self.old.at ≡ LookupAt.Name hold directory left slot k
            → AdvancesTo (saw_name self.old.call hold directory left slot k word) self.new result }
        ensures call { self.new.call ≡ self.old.call }
    {
        let LookupAt::Name { at, .. } = &self.at else {
            return None;
        };
        let at = *at;
        if word != self.call.name[at as usize] {
            return self.has_other_name();
        }
        if at + 1 == WORDS as u64 {
            return self.has_name();
        }
        if let LookupAt::Name { at, .. } = &mut self.at {
            *at += 1;
        }
        None
    }

    /// Where it compares names, the slot has another one.
    fn has_other_name(&mut self) -> Option<Looked>
        requires here { IsLookup self.old }
        ensures advances { (hold : Hold) (directory : Directory) (left slot k : ℕ)
            → self.old.at ≡ LookupAt.Name hold directory left slot k
            → AdvancesTo (next_candidate self.old.call hold directory (without_live left slot)) self.new result }
        ensures call { self.new.call ≡ self.old.call }
    {
        let LookupAt::Name {
            hold,
            directory,
            left,
            slot,
            ..
        } = &self.at
        else {
            return None;
        };
        let (hold, directory, left) = (*hold, *directory, without_live(*left, *slot));
        self.next_candidate(hold, directory, left)
    }

    /// Where it compares names, the slot has its own: it loads the value.
    fn has_name(&mut self) -> Option<Looked>
        ensures advances { (hold : Hold) (directory : Directory) (left slot k : ℕ)
            → self.old.at ≡ LookupAt.Name hold directory left slot k
            → AdvancesTo (goes_to self.old.call (LookupAt.Value hold directory slot)) self.new result }
        ensures call { self.new.call ≡ self.old.call }
    {
        let LookupAt::Name {
            hold,
            directory,
            slot,
            ..
        } = &self.at
        else {
            return None;
        };
        self.at = LookupAt::Value {
            hold: *hold,
            directory: *directory,
            slot: *slot,
        };
        None
    }

    /// Where it loads the value, it has found the slot.
    fn saw_value(&self, value: u64) -> Option<Looked>
        ensures { (hold : Hold) (directory : Directory) (slot : ℕ) → self.now.at ≡ LookupAt.Value hold directory slot
            → AdvancesTo (finds hold directory (Some (record { slot = slot; value = value }))) self.now result }
    {
        let LookupAt::Value {
            hold,
            directory,
            slot,
        } = &self.at
        else {
            return None;
        };
        Some(Looked::Found(Found {
            hold: *hold,
            directory: *directory,
            hit: Some(Hit { slot: *slot, value }),
        }))
    }

    /// It goes on with the lowest of these slots. Where there is none, no live slot has the name.
    fn next_candidate(&mut self, hold: Hold, directory: Directory, left: u64) -> Option<Looked>
        ensures advances { AdvancesTo (next_candidate self.old.call hold directory left) self.new result }
        ensures call { self.new.call ≡ self.old.call }
    {
        let Some(slot) = lowest_live(left) else {
            return Some(Looked::Found(Found {
                hold,
                directory,
                hit: None,
            }));
        };
        self.at = LookupAt::Name {
            hold,
            directory,
            left,
            slot,
            at: 0,
        };
        None
    }
}
