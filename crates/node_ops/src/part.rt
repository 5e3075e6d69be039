//! A part of a range scan: the names of one node, from a low name on, as they were at one clock. Its states, in order:
//!
//! - `Looking`: it walks to the node of its low name.
//! - `Ordering`: it loads that node's permutation. Where that was made at the version word which the walk saw, it has
//! the order of the node's names, and need not sort them.
//! - `Locking`: else it takes the lock of the node, unless none can be taken any more.
//! - `Dating`: without a lock it loads the clock.
//! - `Reading`: it loads the bitmap and the words of each live slot, in rising order of slots. What it lists stands if
//! the version word, loaded again, is still the one that the walk saw. With the lock it sorts the names, stores the
//! permutation and gives the node back.
//!
//! To the law of the index it is a get of its low name.

ghost use Rattle.std.specs.Prelude.{◌≡◌, ◌≤◌};
ghost use Rattle.node_ops.specs.PartSteps.{next_at};

use crate::call::{Call, slot_word};
use crate::in_place::tell;
use crate::lookup::{Hold, Looked, Lookup, LookupAt};
use call_stages::{Once, Placed, View};
use cat_key::{Name, WORDS};
use data_list::{Next, Sighting};
use data_node::{Order, is_below, is_live, live_count, sort_order};
use permutation::{LoadPermutation, PERMUTATION_WORDS, StorePermutation, order_of, permutation_of};
use pm_words::offsets::node;
use pm_words::offsets::shared::CLOCK;
use pm_words::{Action, Again, Machine, SLOT_WORDS, Turn};
use version_lock::{freed_of, locked_of};

/// What a part tells: the first names of its node from its low name on, as they were at its place.
#[derive(Clone, Copy)]
pub struct PartWords {
    pub node: u64,
    /// The node's version word, which it loaded twice, or with which it gave the node back.
    pub version: u64,
    /// How many placed writes come before the part.
    pub place: u64,
    /// What the low name has.
    pub old: Option<u64>,
    /// The anchor of the next node, the first name past the node's range, as the walk saw it. `None` where there is no
    /// next node.
    pub high: Option<Name>,
    /// How many names it lists.
    pub len: u64,
    /// The words of each of these names and its number, in rising order of names, and zeros behind them.
    pub entries: [[u64; 4]; 64],
    /// How many names it sorted.
    pub compared: u64,
    /// How many hops its walk made.
    pub hops: u64,
}

/// The names that are listed so far: the first `len` of `entries`.
#[derive(Clone, Copy)]
pub struct Listing {
    pub len: u64,
    pub entries: [[u64; 4]; 64],
}

/// How a part has its node, and where the order of its names comes from.
#[derive(Clone, Copy)]
pub enum Way {
    /// Without a lock, by the node's permutation, which has these words.
    Served { words: [u64; PERMUTATION_WORDS] },
    /// With the lock. Once all live slots are loaded these are the words of the permutation that it makes.
    Held { words: [u64; PERMUTATION_WORDS] },
    /// Without a lock, which can't be taken any more. It sorts for itself.
    Alone,
}

/// A part at its node: it loads the bitmap and the words of the live slots.
#[derive(Clone, Copy)]
pub struct Reading {
    pub call: Call,
    pub hold: Hold,
    /// What the low name has, once all live slots are loaded.
    pub old: Option<u64>,
    /// The next node, as the walk saw it.
    pub behind: Option<Next>,
    /// At most so many names are listed.
    pub count: u64,
    pub way: Way,
    pub bitmap: u64,
    /// The words that it has loaded, by slot.
    pub entries: [[u64; 4]; 64],
    pub at: ReadingAt,
}

/// What it does next.
#[derive(Clone, Copy)]
pub enum ReadingAt {
    /// It has the lock, and loads the clock.
    Clock,
    Bitmap,
    /// It loads a word of a live slot. Those of the live slots below are loaded.
    Load { slot: u64, word: u64 },
    /// It has no lock, and loads the version word again.
    Check,
    /// It stores the permutation.
    Store { store: StorePermutation },
    /// It gives the node back.
    Unlock,
}

/// A part of a range scan.
#[derive(Clone, Copy)]
pub enum Part {
    Looking {
        lookup: Lookup,
        count: u64,
    },
    Ordering {
        call: Call,
        seen: Sighting,
        count: u64,
        load: LoadPermutation,
    },
    Locking {
        call: Call,
        seen: Sighting,
        count: u64,
        locked: u64,
    },
    Dating {
        call: Call,
        seen: Sighting,
        count: u64,
        way: Way,
    },
    Reading {
        reading: Reading,
    },
}

impl Part {
    ghost use Rattle.std.specs.Prelude.{◌≡◌, ◌≤◌, ◌<◌, ◌^◌, None};
    ghost use Rattle.call_stages.specs.Views.{IsView};
    ghost use Rattle.version_lock.specs.Versions.{generation_of, IsFree};
    ghost use Rattle.node_ops.specs.Calls.{IsCall, new_call};
    ghost use Rattle.node_ops.specs.LookupSteps.{starts};
    ghost use Rattle.node_ops.specs.PartSteps.{IsPart, IsEarly, early_of, part_came, part_dated, part_held};
    ghost use Rattle.node_ops.specs.PartSteps.{part_ordered, seen_at};

    /// The part that lists the first `count` names from this one on, of those that its node has.
    pub fn new(view: View, low: &Name, count: u64) -> Part
        requires { IsView view }
        ensures new { result ≡ Part.Looking (starts (new_call view low.now None)) count }
        ensures sound { IsPart result }
    {
        Part::Looking {
            lookup: Lookup::new(Call::new(view, low, None)),
            count,
        }
    }

    /// A look-up that ended early ends the part, and so does another version word than the walk saw.
    pub fn early(answer: Once<Placed>) -> Once<PartWords>
        requires { IsEarly answer }
        ensures { result ≡ early_of answer }
    {
        match answer {
            Once::Done(_) => unreachable!(),
            Once::Spent { clock } => Once::Spent { clock },
            Once::Worn { node, word } => Once::Worn { node, word },
            Once::Again(why) => Once::Again(why),
        }
    }

    /// What its walk saw of its target, once it has ended.
    fn seen(at: &LookupAt) -> Option<Sighting>
        ensures { result ≡ seen_at at.now }
    {
        match at {
            LookupAt::Read { seen } => Some(*seen),
            _ => None,
        }
    }

    /// It has come to its node, and loads the permutation of that.
    fn came(call: Call, seen: Sighting, count: u64) -> Part
        requires { IsCall call }
        ensures { result ≡ part_came call count seen }
    {
        Part::Ordering {
            call,
            seen,
            count,
            load: LoadPermutation::new(call.view.layout, call.node, seen.version),
        }
    }

    /// It goes by the permutation, if there is one, or takes the lock, or sorts for itself where none can be taken.
    fn ordered(
        call: Call,
        seen: Sighting,
        count: u64,
        order: Option<[u64; PERMUTATION_WORDS]>,
    ) -> Part
        requires known { generation_of seen.version ≤ call.view.generation }
        requires free { IsFree seen.version call.view.generation }
        requires in_range { call.view.generation < 2 ^ 24 }
        ensures { result ≡ part_ordered call seen count order }
    {
        if let Some(words) = order {
            return Part::Dating {
                call,
                seen,
                count,
                way: Way::Served { words },
            };
        }
        match locked_of(seen.version, call.view.generation) {
            Some(locked) => Part::Locking {
                call,
                seen,
                count,
                locked,
            },
            None => Part::Dating {
                call,
                seen,
                count,
                way: Way::Alone,
            },
        }
    }

    /// It has no lock, and this clock.
    fn dated(call: Call, seen: Sighting, count: u64, way: Way, got: u64) -> Part
        ensures { result ≡ part_dated call seen count way got }
    {
        let hold = Hold {
            locked: seen.version,
            clock: got,
        };
        Part::Reading {
            reading: Reading::from(call, hold, seen.next, count, way, ReadingAt::Bitmap),
        }
    }

    /// It has the lock.
    fn locked(call: Call, seen: Sighting, count: u64, locked: u64) -> Part
        ensures { result ≡ part_held call seen count locked }
    {
        let way = Way::Held {
            words: [0; PERMUTATION_WORDS],
        };
        let hold = Hold { locked, clock: 0 };
        Part::Reading {
            reading: Reading::from(call, hold, seen.next, count, way, ReadingAt::Clock),
        }
    }
}

impl Part {
    ghost use Rattle.std.specs.Prelude.{◌≡◌, ◌↔◌, IsSome, IsTrue};
    ghost use Rattle.node_ops.specs.PartSteps.{IsPart, part_call, part_count, part_listed};

    /// What stays the same while it is made.
    pub(crate) fn call(&self) -> Call
        ensures { result ≡ part_call self.now }
    {
        match self {
            Part::Looking { lookup, .. } => lookup.call,
            Part::Ordering { call, .. } => *call,
            Part::Locking { call, .. } => *call,
            Part::Dating { call, .. } => *call,
            Part::Reading { reading } => reading.call,
        }
    }

    /// How many names it lists at most.
    pub(crate) fn count(&self) -> u64
        ensures { result ≡ part_count self.now }
    {
        match self {
            Part::Looking { count, .. } => *count,
            Part::Ordering { count, .. } => *count,
            Part::Locking { count, .. } => *count,
            Part::Dating { count, .. } => *count,
            Part::Reading { reading } => reading.count,
        }
    }

    /// What it tells, where its next turn ends it with that.
    pub(crate) fn listed(&self) -> Option<PartWords>
        requires { IsPart self.now }
        ensures { result ≡ part_listed self.now }
    {
        match self {
            Part::Reading { reading } => reading.listed(),
            _ => None,
        }
    }

    /// Its next turn may end it with what it lists.
    pub(crate) fn has_listed(&self) -> bool
        ensures { IsTrue result ↔ IsSome (part_listed self.now) }
    {
        match self {
            Part::Reading { reading } => reading.has_listed(),
            _ => false,
        }
    }
}

impl Machine for Part {
    ghost use Rattle.node_ops.specs.PartSteps.{IsPart, part_asks, part_turned, part_takes, part_left};

    type Answer = Once<PartWords>;

    ghost fits = { IsPart };

    ghost asks = { part_asks };

    ghost turned = { part_turned };

    ghost takes = { part_takes };

    ghost left = { part_left };

    fn action(&self) -> Action {
        Part::action(self)
    }

    fn resume(self, got: u64) -> Turn<Part, Once<PartWords>> {
        let mut next = self;
        match next.advance(got) {
            None => Turn::Go(next),
            Some(answer) => Turn::Done(answer),
        }
    }
}

impl Part {
    ghost use Rattle.std.specs.Prelude.{◌≡◌, ◌<◌};
    ghost use Rattle.pm_words.specs.Turns.{AdvancesTo, GoesBelow};
    ghost use Rattle.node_ops.specs.PartSteps.{IsPart, part_asks, part_left, part_takes, part_turned, placed_turn};

    /// The action that it asks for.
    pub(crate) fn action(&self) -> Action
        requires { IsPart self.now }
        ensures { result ≡ part_asks self.now }
    {
        match self {
            Part::Looking { lookup, .. } => lookup.action(),
            Part::Ordering { load, .. } => load.action(),
            Part::Locking {
                call,
                seen,
                locked,
                ..
            } => Action::Exchange(call.address(node::VERSION), seen.version, *locked),
            Part::Dating { .. } => Action::Load(CLOCK),
            Part::Reading { reading } => reading.action(),
        }
    }

    /// Tells it in place the number that its action gave. It goes on, or is done where there is an answer.
    pub fn advance(&mut self, got: u64) -> Option<Once<PartWords>>
        requires { part_takes self.old got }
        ensures turned { AdvancesTo (part_turned self.old got) self.new result }
        ensures fewer { GoesBelow part_left (part_left self.old) (part_turned self.old got) }
    {
        let listed = self.listed();
        match self.advance_placed(got)? {
            Once::Done(_) => match listed {
                Some(words) => Some(Once::Done(words)),
                None => unreachable!(),
            },
            Once::Spent { clock } => Some(Once::Spent { clock }),
            Once::Worn { node, word } => Some(Once::Worn { node, word }),
            Once::Again(why) => Some(Once::Again(why)),
        }
    }

    /// Tells it in place the number that its action gave, and answers as a get of its low name does. What it lists is
    /// read before its last turn (`listed`), so no turn has room for it.
    pub(crate) fn advance_placed(&mut self, got: u64) -> Option<Once<Placed>>
        requires { part_takes self.old got }
        ensures turned { AdvancesTo (placed_turn (part_turned self.old got)) self.new result }
        ensures fewer { GoesBelow part_left (part_left self.old) (part_turned self.old got) }
    {
        match self {
            Part::Looking { .. } => self.looked(got),
            Part::Ordering { .. } => {
                self.loaded(got);
                None
            }
            Part::Locking { .. } => self.tried_lock(got),
            Part::Dating { .. } => {
                self.saw_clock(got);
                None
            }
            Part::Reading { reading } => match reading.at {
                ReadingAt::Clock => {
                    reading.saw_clock(got);
                    None
                }
                ReadingAt::Bitmap => {
                    reading.saw_bitmap(got);
                    None
                }
                ReadingAt::Load { slot, word } => {
                    reading.loaded(slot, word, got);
                    None
                }
                ReadingAt::Check => Some(reading.placed(got)),
                ReadingAt::Store { store } => {
                    reading.stored(store, got);
                    None
                }
                ReadingAt::Unlock => Some(Once::Done(reading.given_back())),
            },
        }
    }
}

impl Part {
    ghost use Rattle.std.specs.Prelude.{◌≡◌, ℕ, IfSome};
    ghost use Rattle.data_list.specs.declared.target.Sighting.{Sighting};
    ghost use Rattle.permutation.specs.declared.load.LoadPermutation.{LoadPermutation};
    ghost use Rattle.permutation.specs.Loads.{load_turned};
    ghost use Rattle.pm_words.specs.declared.machine.Turn.TheVariants.{Go};
    ghost use Rattle.pm_words.specs.Turns.{AdvancesTo, GoesBelow};
    ghost use Rattle.node_ops.specs.declared.call.Call.{Call};
    ghost use Rattle.node_ops.specs.declared.part.Way.{Way};
    ghost use Rattle.node_ops.specs.LookupSteps.{lookup_turned};
    ghost use Rattle.node_ops.specs.Calls.{IsCall};
    ghost use Rattle.node_ops.specs.PartSteps.{IsEarly, IsPart, ordering_turned, part_came, part_dated, part_left};
    ghost use Rattle.node_ops.specs.PartSteps.{part_locked};
    ghost use Rattle.node_ops.specs.PartSteps.{part_looked, part_takes, placed_turn};

    /// Where it walks, it has one number more, and once its walk has ended it loads the permutation.
    fn looked(&mut self, got: u64) -> Option<Once<Placed>>
        requires { part_takes self.old got }
        ensures turned { (lookup : Lookup) (count : ℕ) → self.old ≡ Part.Looking lookup count
            → AdvancesTo (placed_turn (part_looked count (lookup_turned lookup got))) self.new result }
        ensures early { IfSome result IsEarly }
        ensures fewer { (lookup : Lookup) (count : ℕ) → self.old ≡ Part.Looking lookup count
            → GoesBelow part_left (part_left self.old) (part_looked count (lookup_turned lookup got)) }
    {
        let Part::Looking { lookup, count } = self else {
            return None;
        };
        match lookup.advance(got) {
            None => {
                if let Some(seen) = Part::seen(&lookup.at) {
                    let (call, count) = (lookup.call, *count);
                    self.comes(call, seen, count);
                }
                None
            }
            Some(Looked::Early(answer)) => Some(answer),
            Some(Looked::Found(_)) => unreachable!(),
        }
    }

    /// It has come to its node.
    fn comes(&mut self, call: Call, seen: Sighting, count: u64)
        requires { IsCall call }
        ensures { self.new ≡ part_came call count seen }
    {
        *self = Part::came(call, seen, count);
    }

    /// Where it loads the permutation, it has one number more.
    fn loaded(&mut self, got: u64)
        requires { IsPart self.old }
        ensures { (call : Call) (seen : Sighting) (count : ℕ) (load : LoadPermutation)
            → self.old ≡ Part.Ordering call seen count load
            → Go self.new ≡ ordering_turned call seen count (load_turned load got) }
    {
        let Part::Ordering {
            call,
            seen,
            count,
            load,
        } = self
        else {
            return;
        };
        if let Some(order) = tell(load, got) {
            let (call, seen, count) = (*call, *seen, *count);
            *self = Part::ordered(call, seen, count, order);
        }
    }

    /// Where it takes the lock, it has it, or another version word than the walk saw ends it.
    fn tried_lock(&mut self, got: u64) -> Option<Once<Placed>>
        ensures turned { (call : Call) (seen : Sighting) (count locked : ℕ) →
            self.old ≡ Part.Locking call seen count locked
            → AdvancesTo (placed_turn (part_locked call seen count locked got)) self.new result }
        ensures early { IfSome result IsEarly }
    {
        let Part::Locking {
            call,
            seen,
            count,
            locked,
        } = self
        else {
            return None;
        };
        let (call, seen, count, locked) = (*call, *seen, *count, *locked);
        if got == seen.version {
            *self = Part::locked(call, seen, count, locked);
            return None;
        }
        Some(Once::Again(Again::Moved {
            node: call.node,
            first: seen.version,
            second: got,
        }))
    }

    /// Without a lock it has the clock, and reads the node.
    fn saw_clock(&mut self, got: u64)
        ensures { (call : Call) (seen : Sighting) (count : ℕ) (way : Way) → self.old ≡ Part.Dating call seen count way
            → self.new ≡ part_dated call seen count way got }
    {
        let Part::Dating {
            call,
            seen,
            count,
            way,
        } = self
        else {
            return;
        };
        let (call, seen, count, way) = (*call, *seen, *count, *way);
        *self = Part::dated(call, seen, count, way, got);
    }
}

impl Reading {
    ghost use Rattle.std.specs.Prelude.{◌≡◌, ◌≤◌, ◌<◌, length, Option};
    ghost use Rattle.data_list.specs.declared.target.Next.{Next};
    ghost use Rattle.node_ops.specs.LookupSteps.{value_of};
    ghost use Rattle.node_ops.specs.PartSteps.{IsReading, after_bitmap, after_word, all_loaded, entry_in, goes_on};
    ghost use Rattle.node_ops.specs.PartSteps.{has_low, low_value};
    ghost use Rattle.node_ops.specs.PartSteps.{reading_asks, reading_from, reading_turned, sorted_by, store_on};
    ghost use Rattle.permutation.specs.Stores.{IsStore, store_turned};

    /// At its node, of which it has nothing yet.
    fn from(
        call: Call,
        hold: Hold,
        behind: Option<Next>,
        count: u64,
        way: Way,
        at: ReadingAt,
    ) -> Reading
        ensures { result ≡ reading_from call hold behind count way at }
    {
        Reading {
            call,
            hold,
            old: None,
            behind,
            count,
            way,
            bitmap: 0,
            entries: [[0; 4]; 64],
            at,
        }
    }

    fn action(&self) -> Action
        requires { IsReading self.now }
        ensures { result ≡ reading_asks self.now }
    {
        match self.at {
            ReadingAt::Clock => Action::Load(CLOCK),
            ReadingAt::Bitmap => Action::Load(self.call.address(node::BITMAP)),
            ReadingAt::Load { slot, word } => {
                Action::Load(self.call.address(slot_word(slot, word)))
            }
            ReadingAt::Check => Action::Load(self.call.address(node::VERSION)),
            ReadingAt::Store { store } => store.action(),
            ReadingAt::Unlock => {
                let freed = freed_of(self.hold.locked);
                Action::Store(self.call.address(node::VERSION), freed)
            }
        }
    }

    /// Under the lock it has the clock.
    fn saw_clock(&mut self, got: u64)
        ensures { self.exit.now ≡ record (self.entry.now) {
          hold = record { locked = self.entry.now.hold.locked; clock = got };
          at = ReadingAt.Bitmap;
        } }
    {
        self.hold.clock = got;
        self.at = ReadingAt::Bitmap;
    }

    /// It has the bitmap.
    fn saw_bitmap(&mut self, got: u64)
        requires { IsReading self.now }
        ensures { self.exit.now ≡ after_bitmap self.entry.now got }
    {
        let at = next_at(got, 0, self.call.view.layout.slots());
        self.bitmap = got;
        self.goes_on(at);
    }

    /// It has this word of this slot more.
    fn loaded(&mut self, slot: u64, word: u64, got: u64)
        requires sound { IsReading self.now }
        requires slot { slot < self.now.call.view.layout.slots }
        requires word { word < 4 }
        ensures { self.exit.now ≡ after_word self.entry.now slot word got }
    {
        self.entries[slot as usize][word as usize] = got;
        let at = if word + 1 < SLOT_WORDS {
            ReadingAt::Load {
                slot,
                word: word + 1,
            }
        } else {
            next_at(self.bitmap, slot + 1, self.call.view.layout.slots())
        };
        self.goes_on(at);
    }
}

impl Reading {
    ghost use Rattle.std.specs.Prelude.{◌≡◌, ◌≤◌, ◌<◌, Some};
    ghost use Rattle.data_node.specs.Orders.{listed};
    ghost use Rattle.permutation.specs.declared.store.StorePermutation.{StorePermutation};
    ghost use Rattle.permutation.specs.Stores.{IsStore, store_turned};
    ghost use Rattle.node_ops.specs.PartSteps.{IsReading, IsWordBy, all_loaded, entry_in, goes_on, has_low, low_or};
    ghost use Rattle.node_ops.specs.PartSteps.{low_value};
    ghost use Rattle.node_ops.specs.PartSteps.{sorted_by, sorted_in, store_on};
    ghost use Rattle.permutation.specs.Permutations.{permutation_words};
    ghost use Rattle.node_ops.specs.Calls.{IsCall};

    /// On to this slot, or all live slots are loaded.
    fn goes_on(&mut self, at: ReadingAt)
        requires call { IsCall self.now.call }
        requires locked { IsWordBy self.now.way self.now.hold.locked }
        ensures { self.exit.now ≡ goes_on self.entry.now at }
    {
        match at {
            ReadingAt::Load { slot, word } => self.at = ReadingAt::Load { slot, word },
            ReadingAt::Clock
            | ReadingAt::Bitmap
            | ReadingAt::Check
            | ReadingAt::Store { .. }
            | ReadingAt::Unlock => self.all_loaded(),
        }
    }

    /// It knows what the low name has. Then it loads the version word again, or it stores the permutation.
    fn all_loaded(&mut self)
        requires call { IsCall self.now.call }
        requires locked { IsWordBy self.now.way self.now.hold.locked }
        ensures { self.exit.now ≡ all_loaded self.entry.now }
    {
        self.old = self.low_value();
        match self.way {
            Way::Held { .. } => {
                let words = self.permutation();
                self.way = Way::Held { words };
                self.at = ReadingAt::Store {
                    store: StorePermutation::new(
                        self.call.view.layout,
                        self.call.node,
                        self.hold.locked,
                        words,
                    ),
                };
            }
            Way::Served { .. } | Way::Alone => self.at = ReadingAt::Check,
        }
    }

    /// The permutation of the live slots.
    fn permutation(&self) -> [u64; PERMUTATION_WORDS]
        requires { IsCall self.now.call }
        ensures { result ≡ permutation_words (sorted_in self.now) }
    {
        let slots = self.call.view.layout.slots();
        let order = sort_order(&self.entries, self.bitmap, slots);
        permutation_of(&order)
    }

    /// What the low name has.
    fn low_value(&self) -> Option<u64>
        requires { IsCall self.now.call }
        ensures { result ≡ low_value self.now self.now.call.view.layout.slots }
    {
        let mut old = None;
        for slot in 0..self.call.view.layout.slots() {
            old = self.low_or(slot, old);
        }
        old
    }

    /// What it has by this slot, or else this.
    fn low_or(&self, slot: u64, old: Option<u64>) -> Option<u64>
        requires { slot < 64 }
        ensures { result ≡ low_or self.now slot old }
    {
        if self.has_low(slot) {
            return Some(self.entry(slot)[WORDS]);
        }
        old
    }

    /// The words of a slot.
    fn entry(&self, slot: u64) -> [u64; 4]
        ensures { result ≡ entry_in self.now.entries slot }
    {
        match self.entries.get(slot as usize) {
            Some(entry) => *entry,
            None => [0; 4],
        }
    }

    /// The slot is live, and has the low name.
    fn has_low(&self, slot: u64) -> bool
        requires { slot < 64 }
        ensures { result ≡ has_low self.now slot }
    {
        let entry = self.entry(slot);
        let low = self.call.name;
        is_live(self.bitmap, slot)
            && (entry[0] == low[0] && (entry[1] == low[1] && entry[2] == low[2]))
    }

    /// It has stored one word more.
    fn stored(&mut self, store: StorePermutation, got: u64)
        requires { IsStore store }
        ensures { self.exit.now ≡ store_on self.entry.now (store_turned store got) }
    {
        self.at = match store.resume(got) {
            Turn::Go(store) => ReadingAt::Store { store },
            Turn::Done(()) => ReadingAt::Unlock,
        };
    }
}

impl Reading {
    ghost use Rattle.std.specs.Prelude.{◌≡◌, ◌<◌, ◌≤◌, ◌↔◌, IsSome, IsTrue};
    ghost use Rattle.data_list.specs.Walks.{high_of};
    ghost use Rattle.data_node.specs.Orders.{listed};
    ghost use Rattle.node_ops.specs.PartSteps.{IsReading, compared_by, lists, listed_at, listing_in, order_in};
    ghost use Rattle.node_ops.specs.PartSteps.{part_checked, part_words};
    ghost use Rattle.node_ops.specs.PartSteps.{placed_of, version_at, words_placed};

    /// What it comes to, as a get of its low name: what it tells, where the version word is still the one that the walk
    /// saw.
    fn placed(&self, got: u64) -> Once<Placed>
        requires { IsReading self.now }
        ensures { result ≡ placed_of (part_checked self.now got) }
    {
        let Hold { locked, .. } = self.hold;
        if got == locked {
            Once::Done(self.given_back())
        } else {
            Once::Again(Again::Moved {
                node: self.call.node,
                first: locked,
                second: got,
            })
        }
    }

    /// What it tells, as a get of its low name.
    fn given_back(&self) -> Placed
        ensures { result ≡ words_placed (part_words self.now) }
    {
        let Hold { clock, .. } = self.hold;
        Placed {
            old: self.old,
            place: clock,
            hops: self.call.hops,
        }
    }

    /// What it tells, where its next turn ends it with that.
    fn listed(&self) -> Option<PartWords>
        requires { IsReading self.now }
        ensures { result ≡ listed_at self.now self.now.at }
    {
        match self.at {
            ReadingAt::Check | ReadingAt::Unlock => Some(self.words()),
            ReadingAt::Clock
            | ReadingAt::Bitmap
            | ReadingAt::Load { .. }
            | ReadingAt::Store { .. } => None,
        }
    }

    /// Its next turn may end it with what it lists.
    fn has_listed(&self) -> bool
        ensures { IsTrue result ↔ IsSome (listed_at self.now self.now.at) }
    {
        match self.at {
            ReadingAt::Check | ReadingAt::Unlock => true,
            ReadingAt::Clock
            | ReadingAt::Bitmap
            | ReadingAt::Load { .. }
            | ReadingAt::Store { .. } => false,
        }
    }

    /// What it tells.
    fn words(&self) -> PartWords
        requires { IsReading self.now }
        ensures { result ≡ part_words self.now }
    {
        let order = self.order();
        let high = self.high();
        let Listing { len, entries } = self.listing(&order);
        PartWords {
            node: self.call.node,
            version: self.version(),
            place: self.hold.clock,
            old: self.old,
            high,
            len,
            entries,
            compared: self.compared(order.len as u64),
            hops: self.call.hops,
        }
    }

    /// The live slots in rising order of names.
    fn order(&self) -> Order
        requires { IsReading self.now }
        ensures listed { listed result ≡ order_in self.now }
        ensures len { result.len ≤ 64 }
    {
        let slots = self.call.view.layout.slots();
        match &self.way {
            Way::Served { words } => order_of(words, live_count(self.bitmap, slots)),
            Way::Held { words } => order_of(words, live_count(self.bitmap, slots)),
            Way::Alone => sort_order(&self.entries, self.bitmap, slots),
        }
    }

    /// How many of so many names it sorted.
    fn compared(&self, names: u64) -> u64
        ensures { result ≡ compared_by self.now.way names }
    {
        match self.way {
            Way::Served { .. } => 0,
            Way::Held { .. } => names,
            Way::Alone => names,
        }
    }

    /// The node's version word as it is done with the node.
    fn version(&self) -> u64
        requires { IsReading self.now }
        ensures { result ≡ version_at self.now.hold.locked self.now.at }
    {
        match self.at {
            ReadingAt::Unlock => freed_of(self.hold.locked),
            ReadingAt::Clock
            | ReadingAt::Bitmap
            | ReadingAt::Load { .. }
            | ReadingAt::Check
            | ReadingAt::Store { .. } => self.hold.locked,
        }
    }

    /// The first name past the node's range, if there is a next node.
    fn high(&self) -> Option<Name>
        ensures { result ≡ high_of self.now.behind }
    {
        let Some(next) = self.behind else {
            return None;
        };
        next.name()
    }

    /// The first of the names that are no lower than the low one, where these are the slots in rising order of names.
    fn listing(&self, order: &Order) -> Listing
        requires { order.now.len ≤ 64 }
        ensures { result ≡ listing_in self.now (listed order.now) }
    {
        let mut listing = Listing {
            len: 0,
            entries: [[0; 4]; 64],
        };
        for place in 0..order.len {
            self.list(&mut listing, order.slots[place]);
        }
        listing
    }

    /// It lists the name in this slot, unless that is below the low one, or there are enough.
    fn list(&self, listing: &mut Listing, slot: u8)
        requires { listing.old.len < 64 }
        ensures { listing.new ≡ lists self.now listing.old slot }
    {
        let entry = match self.entries.get(usize::from(slot)) {
            Some(entry) => *entry,
            None => [0; 4],
        };
        let name = [entry[0], entry[1], entry[2]];
        if listing.len < self.count && !is_below(&name, &self.call.name) {
            listing.entries[listing.len as usize] = entry;
            listing.len += 1;
        }
    }
}

/// On to the lowest live slot from this one on, if there is one.
fn next_at(bitmap: u64, from: u64, slots: u64) -> ReadingAt
    requires { slots ≤ 64 }
    ensures { result ≡ next_at bitmap from slots }
{
    for slot in from..slots {
        if is_live(bitmap, slot) {
            return ReadingAt::Load { slot, word: 0 };
        }
    }
    ReadingAt::Check
}
