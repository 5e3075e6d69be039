//! A map of names whose calls have a budget of events.

ghost use Rattle.std.specs.Prelude.{◌≡◌, ◌+◌, ◌<◌, ◌≤◌, ◌^◌, [], ◌∷◌, ℕ, List, All, IfOk, length, take, MatchResult};
ghost use Rattle.cat_key.specs.Names.{IsName};
ghost use Rattle.cat_history.specs.Maps.{at};
ghost use Rattle.cat_history.specs.Scans.{range};
ghost use Rattle.cat_history.specs.declared.op.Change.TheVariants as change;
ghost use Rattle.shapes.specs.Anchors.{next_of};
ghost use Rattle.shapes.specs.Weights.{IsShape};
ghost use Rattle.cat_history.specs.declared.op.CallerOp.{CallerOp};
ghost use Rattle.cat_history.specs.declared.op.Op.TheVariants as Op;
ghost use Rattle.stopped_rounds.specs.Bounded.{ComesTo, DelGave, IsInTime, IsSame, PutGave, WasCut, put_added};

use cat_history::NoMemory;
use cat_key::Name;
use shapes::{Full, MapPart};
use std::alloc::Global;

/// What a call comes to within a budget.
#[derive(Drop)]
pub enum Bounded<T> {
    Answered(T),
    /// The budget was used up before an event that it still had to make; and whether its write has a place.
    Cut { placed: bool },
}

/// A map from names to numbers, as it is once all writes that have a place are done. A call takes events of its budget,
/// which isn't 0 as it begins, and is cut off where that is used up. Then no call is made any more.
pub trait BoundedMap {
    ghost use Rattle.std.specs.Prelude.{ℕ};
    ghost use Rattle.std.specs.Prelude.{List};
    ghost use Rattle.cat_history.specs.declared.op.CallerOp.{CallerOp};
    ghost use Rattle.stopped_rounds.specs.Bounded.{MapState};

    /// The map, however it is kept, where its members begin, and the changes that were cut off without a place.
    ghost state: { Self → MapState };

    /// How many names a member can have.
    ghost slots: { Self → ℕ };

    /// How many members there can be.
    ghost most: { Self → ℕ };

    /// How many more calls can be made of it.
    ghost calls_left: { Self → ℕ };

    /// How many more of them can be puts and removals.
    ghost writes_left: { Self → ℕ };

    /// What it weighs, and so what a crash leaves of it at most. A put that adds a name makes it heavier by one at
    /// most, and so does one that is cut off.
    ghost weighs: { Self → ℕ };

    /// Whether none of these calls, made one after another with no turn of the updater between, makes one itself.
    ghost turnless: { Self → List CallerOp → Type 0 };

    /// So many events a call on a name makes at most that makes no turn of the updater.
    ghost call_events: { ℕ };

    /// Whether there is room for these calls, made one after another with turns of the updater between.
    ghost has_room: { Self → List CallerOp → Type 0 };

    /// So many calls make no turns themselves behind a turn of the updater, where there is room for them.
    ghost calls_between: { ℕ };

    /// So many events a turn of the updater makes at most.
    ghost turn_events: { ℕ };

    /// Its members are of a shape that they can have, and what holds of calls holds of those behind the first of them
    /// without it. It does nothing.
    fn has_shape(&self)
        requires { (state self.now).cut ≡ [] }
        ensures shape { IsShape (slots self.now) (most self.now) (state self.now).contents (state self.now).anchors }
        ensures fewer { (a : CallerOp) (rest : List CallerOp) → turnless self.now (a ∷ rest) → turnless self.now rest }
        ensures room { (a : CallerOp) (rest : List CallerOp) → has_room self.now (a ∷ rest) → has_room self.now rest };

    /// The number of a name.
    fn get(&mut self, name: &Name, budget: &mut u64) -> Bounded<Option<u64>>
        requires uncut { (state self.old).cut ≡ [] }
        requires calls { 0 < calls_left self.old }
        requires some { 0 < budget.old }
        ensures same { IsSame (state self.old) (state self.new) }
        ensures ends { ComesTo result (λ number. number ≡ at (state self.old).contents name.now)
            (λ placed. budget.new ≡ 0) }
        ensures in_time { (a : CallerOp) (rest : List CallerOp) → a.op ≡ Op.Get name.now →
            turnless self.old (a ∷ rest) →
            IsInTime result call_events budget.old budget.new (turnless self.new rest) }
        ensures room { (a : CallerOp) (rest : List CallerOp) → a.op ≡ Op.Get name.now →
            has_room self.old (a ∷ rest) → ComesTo result (λ _. has_room self.new rest) (λ _. Unit {0}) }
        ensures slots { slots self.new ≡ slots self.old }
        ensures most { most self.new ≡ most self.old }
        ensures calls_left { calls_left self.old ≤ calls_left self.new + 1 }
        ensures writes_left { writes_left self.old ≤ writes_left self.new }
        ensures weighs { weighs self.new ≤ weighs self.old };

    /// The first names of the member of this name that are at least it, so many at most, and where the next member
    /// begins.
    fn part(
        &mut self,
        alloc: Global,
        low: &Name,
        count: u64,
        budget: &mut u64,
    ) -> Result<Bounded<MapPart>, NoMemory>
        requires uncut { (state self.old).cut ≡ [] }
        requires calls { 0 < calls_left self.old }
        requires some { 0 < budget.old }
        ensures same { IsSame (state self.old) (state self.new) }
        ensures ends { IfOk result (λ ended. ComesTo ended
            (λ part. (part.high ≡ next_of (state self.old).anchors low.now) ×
            (part.pairs ≡ take count (range (state self.old).contents low.now part.high)))
            (λ placed. budget.new ≡ 0)) }
        ensures named { IfOk result (λ ended. ComesTo ended
            (λ part. All (λ pair. IsName pair.name × (pair.value < 2 ^ 64)) part.pairs) (λ placed. Unit {0})) }
        ensures slots { slots self.new ≡ slots self.old }
        ensures most { most self.new ≡ most self.old }
        ensures calls_left { calls_left self.old ≤ calls_left self.new + 1 }
        ensures writes_left { writes_left self.old ≤ writes_left self.new }
        ensures weighs { weighs self.new ≤ weighs self.old };

    /// Gives a name this number, and answers the one before. `Full` comes exactly where the put is full in the shape.
    fn put(
        &mut self,
        name: &Name,
        value: u64,
        budget: &mut u64,
    ) -> Bounded<Result<Option<u64>, Full>>
        requires uncut { (state self.old).cut ≡ [] }
        requires calls { 0 < calls_left self.old }
        requires writes { 0 < writes_left self.old }
        requires some { 0 < budget.old }
        ensures ends { ComesTo result
            (λ answer. PutGave (slots self.old) (most self.old) (state self.old) name.now value answer (state self.new))
            (λ placed. (budget.new ≡ 0) ×
            WasCut (state self.old) (change.Put name.now value) placed (state self.new)) }
        ensures in_time { (a : CallerOp) (rest : List CallerOp) → a.op ≡ Op.Put name.now value →
            turnless self.old (a ∷ rest) →
            IsInTime result call_events budget.old budget.new (turnless self.new rest) }
        ensures room { (a : CallerOp) (rest : List CallerOp) → a.op ≡ Op.Put name.now value →
            has_room self.old (a ∷ rest) → ComesTo result (λ _. has_room self.new rest) (λ _. Unit {0}) }
        ensures slots { slots self.new ≡ slots self.old }
        ensures most { most self.new ≡ most self.old }
        ensures calls_left { calls_left self.old ≤ calls_left self.new + 1 }
        ensures writes_left { writes_left self.old ≤ writes_left self.new + 1 }
        ensures weighs { weighs self.new ≤ weighs self.old + put_added result };

    /// Removes a name, and answers the number that it had.
    fn del(&mut self, name: &Name, budget: &mut u64) -> Bounded<Option<u64>>
        requires uncut { (state self.old).cut ≡ [] }
        requires calls { 0 < calls_left self.old }
        requires writes { 0 < writes_left self.old }
        requires some { 0 < budget.old }
        ensures ends { ComesTo result
            (λ answer. DelGave (slots self.old) (state self.old) name.now answer (state self.new))
            (λ placed. (budget.new ≡ 0) ×
            WasCut (state self.old) (change.Del name.now) placed (state self.new)) }
        ensures in_time { (a : CallerOp) (rest : List CallerOp) → a.op ≡ Op.Del name.now →
            turnless self.old (a ∷ rest) →
            IsInTime result call_events budget.old budget.new (turnless self.new rest) }
        ensures room { (a : CallerOp) (rest : List CallerOp) → a.op ≡ Op.Del name.now →
            has_room self.old (a ∷ rest) → ComesTo result (λ _. has_room self.new rest) (λ _. Unit {0}) }
        ensures slots { slots self.new ≡ slots self.old }
        ensures most { most self.new ≡ most self.old }
        ensures calls_left { calls_left self.old ≤ calls_left self.new + 1 }
        ensures writes_left { writes_left self.old ≤ writes_left self.new + 1 }
        ensures weighs { weighs self.new ≤ weighs self.old };

    /// A turn of the updater within its own budget. It may be cut off, and changes nothing but how the map is kept.
    /// Where the budget is enough it isn't, and the next calls make no turns themselves.
    fn turn(&mut self, budget: &mut u64)
        requires uncut { (state self.old).cut ≡ [] }
        ensures in_time { (calls : ℕ) (more : List CallerOp) → calls ≤ calls_between → 0 < length more →
            turnless self.old [] → has_room self.old more → turn_events ≤ budget.old →
            (budget.old ≤ budget.new + turn_events) × turnless self.new (take calls more) × has_room self.new more }
        ensures same { IsSame (state self.old) (state self.new) }
        ensures slots { slots self.new ≡ slots self.old }
        ensures most { most self.new ≡ most self.old }
        ensures calls_left { calls_left self.old ≤ calls_left self.new }
        ensures writes_left { writes_left self.old ≤ writes_left self.new }
        ensures weighs { weighs self.new ≤ weighs self.old };
}
