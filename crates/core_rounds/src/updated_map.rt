//! A map of names that an updater keeps in order.

ghost use Rattle.std.specs.Prelude.{◌≡◌, ◌+◌, ◌<◌, ◌≤◌, ◌^◌, ◌↔◌, ℕ, All, IfOk, OnOk, OnErr, IsErr, is_none, take};
ghost use Rattle.std.specs.FinMap.{insert, remove, len};
ghost use Rattle.cat_key.specs.Names.{IsName};
ghost use Rattle.cat_history.specs.Maps.{at};
ghost use Rattle.cat_history.specs.Scans.{range};
ghost use Rattle.shapes.specs.Anchors.{IsFullPut, del_anchors, merges, next_of, put_anchors, splits};
ghost use Rattle.core_rounds.specs.Updated.{HoldsSame, IsInShape, UsesUp, WaitBehind, WaitOn};
ghost use Rattle.core_rounds.specs.Waiting.{one_if};

use cat_history::NoMemory;
use cat_key::Name;
use shapes::{Full, MapPart};
use std::alloc::Global;

/// A map from names to numbers as `NameMap` is one, whose calls leave work to an updater, which does it in turns.
pub trait UpdatedMap {
    ghost use Rattle.std.specs.Prelude.{ℕ};
    ghost use Rattle.core_rounds.specs.Updated.{UpdatedState};

    /// The map and where its members begin; what it has room for, how many more calls can be made of it, and what it
    /// weighs. A look-up, a put, a removal and a part use up one call at most, and a put and a removal one of those
    /// that are left for them. A put that adds a name makes it heavier by one at most.
    ghost state: { Self → UpdatedState };

    /// Whether no call has left anything for the updater to do.
    ghost is_settled: { Self → Type 0 };

    /// Whether so many changes of its members wait for the updater, and each caller can make so many more puts and
    /// removals, of which so many are puts, before a call makes a turn itself.
    ghost waits: { Self → ℕ → ℕ → ℕ → Type 0 };

    /// Its members are of a shape that they can have, and room for more puts and removals is room for fewer. It does
    /// nothing.
    fn has_shape(&self)
        ensures shape { IsInShape (state self.now) }
        ensures fewer { (changes writes puts fewer_writes fewer_puts : ℕ) → fewer_writes ≤ writes → fewer_puts ≤ puts →
            waits self.now changes writes puts → waits self.now changes fewer_writes fewer_puts };

    /// The number of a name; None where the map lacks it. The look-up may change how the map is kept, not what it
    /// holds.
    fn get(&mut self, caller: u64, name: &Name) -> Option<u64>
        requires caller { caller < (state self.old).callers }
        requires calls { 0 < (state self.old).calls_left }
        ensures number { result ≡ at (state self.old).contents name.now }
        ensures same { HoldsSame (state self.old) (state self.new) }
        ensures uses { UsesUp (state self.old) (state self.new) 1 0 }
        ensures waits { WaitOn (waits self.old) (waits self.new) };

    /// The first names of the member of this name that are at least it, so many at most, with their numbers; and where
    /// the next member begins. The look-up may change how the map is kept, not what it holds, also where there is no
    /// memory for its answer.
    fn part(
        &mut self,
        alloc: Global,
        caller: u64,
        low: &Name,
        count: u64,
    ) -> Result<MapPart, NoMemory>
        requires caller { caller < (state self.old).callers }
        requires calls { 0 < (state self.old).calls_left }
        ensures high { IfOk result (λ part. part.high ≡ next_of (state self.old).anchors low.now) }
        ensures pairs { IfOk result
            (λ part. part.pairs ≡ take count (range (state self.old).contents low.now part.high)) }
        ensures named { IfOk result (λ part. All (λ pair. IsName pair.name × (pair.value < 2 ^ 64)) part.pairs) }
        ensures same { HoldsSame (state self.old) (state self.new) }
        ensures uses { UsesUp (state self.old) (state self.new) 1 0 }
        ensures waits { WaitOn (waits self.old) (waits self.new) };

    /// Gives a name this number, and answers the one before. `Full` comes exactly where the map lacks the name, its
    /// target has no room for one more, and there are as many members as there can be; then it stays as it was.
    /// Otherwise a target without room is split.
    fn put(&mut self, caller: u64, name: &Name, value: u64) -> Result<Option<u64>, Full>
        requires caller { caller < (state self.old).callers }
        requires calls { 0 < (state self.old).calls_left }
        requires writes { 0 < (state self.old).writes_left }
        ensures old { IfOk result (λ old. old ≡ at (state self.old).contents name.now) }
        ensures ok { OnOk result ((state self.new).contents ≡ insert (state self.old).contents name.now value) }
        ensures splits { OnOk result ((state self.new).anchors ≡
            put_anchors (state self.old).slots (state self.old).contents (state self.old).anchors name.now) }
        ensures full { IsErr result ↔ IsFullPut (state self.old).slots (state self.old).most (state self.old).contents
            (state self.old).anchors name.now }
        ensures err { OnErr result (HoldsSame (state self.old) (state self.new)) }
        ensures uses { UsesUp (state self.old) (state self.new) 1 1 }
        ensures weighs { IfOk result
            (λ old. (state self.new).weighs ≤ (state self.old).weighs + one_if (is_none old)) }
        ensures waits { OnOk result (WaitBehind (waits self.old) (waits self.new)
            (one_if (splits (state self.old).slots (state self.old).contents (state self.old).anchors name.now)) 1 1) }
        ensures err_waits { OnErr result (WaitBehind (waits self.old) (waits self.new) 0 1 1) };

    /// Removes a name, and answers the number that it had; None where the map lacks it. Where its target and the next
    /// member then have few names together, that one is merged into it; its node comes back, so that there can be as
    /// many members as before.
    fn del(&mut self, caller: u64, name: &Name) -> Option<u64>
        requires caller { caller < (state self.old).callers }
        requires calls { 0 < (state self.old).calls_left }
        requires writes { 0 < (state self.old).writes_left }
        ensures old { result ≡ at (state self.old).contents name.now }
        ensures after { (state self.new).contents ≡ remove (state self.old).contents name.now }
        ensures anchors { (state self.new).anchors ≡
            del_anchors (state self.old).slots (state self.old).contents (state self.old).anchors name.now }
        ensures uses { UsesUp (state self.old) (state self.new) 1 1 }
        ensures weighs { (state self.new).weighs ≤ (state self.old).weighs }
        ensures waits { WaitBehind (waits self.old) (waits self.new)
            (one_if (merges (state self.old).slots (state self.old).contents (state self.old).anchors name.now)) 1 0 };

    /// How many names the map has.
    fn len(&self) -> u64
        ensures { result ≡ len (state self.now).contents };

    /// A turn of the updater, which does all that calls have left to it. It changes how the map is kept, not what it
    /// holds, and uses up no call.
    fn turn(&mut self)
        ensures settled { is_settled self.new }
        ensures same { HoldsSame (state self.old) (state self.new) }
        ensures uses { UsesUp (state self.old) (state self.new) 0 0 };
}
