//! A map from names to numbers, kept in members of so many names each, however it is kept.

ghost use Rattle.std.specs.Prelude.{◌≡◌, ◌+◌, ◌<◌, ◌≤◌, ◌^◌, ◌↔◌, All, IfOk, OnOk, OnErr, IsErr, take};
ghost use Rattle.std.specs.FinMap.{insert, remove, len};
ghost use Rattle.cat_key.specs.Names.{IsName};
ghost use Rattle.cat_history.specs.Maps.{at};
ghost use Rattle.cat_history.specs.Scans.{range};
ghost use Rattle.shapes.specs.Anchors.{IsFullPut, del_anchors, next_of, put_anchors};
ghost use Rattle.shapes.specs.Weights.{IsShape};

use cat_history::{NoMemory, Pairs};
use cat_key::Name;
use std::alloc::Global;

/// A put of a new name found no room.
#[derive(Clone, Copy, Debug, PartialEq, Eq)]
pub struct Full;

/// What a map has of the names of one member.
#[derive(Drop)]
pub struct MapPart {
    /// Where the next member begins; None where this one is the last.
    pub high: Option<Name>,
    /// The names that were asked for, with their numbers, in rising order.
    pub pairs: Pairs,
}

/// A map from names to numbers, whose members have room for a fixed number of names each. There can be so many members
/// and no more.
pub trait NameMap {
    ghost use Rattle.std.specs.Prelude.{ℕ};
    ghost use Rattle.cat_history.specs.Maps.{Map};
    ghost use Rattle.shapes.specs.Anchors.{Anchors};

    /// The map, however it is kept.
    ghost contents: { Self → Map };

    /// Where its members begin.
    ghost anchors: { Self → Anchors };

    /// How many names a member can have.
    ghost slots: { Self → ℕ };

    /// How many members there can be.
    ghost most: { Self → ℕ };

    /// How many more calls can be made of it. A look-up, a put, a removal and a part use up one at most.
    ghost calls_left: { Self → ℕ };

    /// How many more of them can be puts and removals. Each of these uses up one at most.
    ghost writes_left: { Self → ℕ };

    /// Its members are of a shape that they can have. It does nothing.
    fn has_shape(&self)
        ensures { IsShape (slots self.now) (most self.now) (contents self.now) (anchors self.now) };

    /// The number of a name; None where the map lacks it. The look-up may change how the map is kept, not what it
    /// holds.
    fn get(&mut self, name: &Name) -> Option<u64>
        requires { 0 < calls_left self.old }
        ensures number { result ≡ at (contents self.old) name.now }
        ensures contents { contents self.new ≡ contents self.old }
        ensures anchors { anchors self.new ≡ anchors self.old }
        ensures slots { slots self.new ≡ slots self.old }
        ensures most { most self.new ≡ most self.old }
        ensures calls_left { calls_left self.old ≤ calls_left self.new + 1 }
        ensures writes_left { writes_left self.old ≤ writes_left self.new };

    /// The first names of the member of this name that are at least it, so many at most, with their numbers; and where
    /// the next member begins. The look-up may change how the map is kept, not what it holds, also where there is no
    /// memory for its answer.
    fn part(&mut self, alloc: Global, low: &Name, count: u64) -> Result<MapPart, NoMemory>
        requires { 0 < calls_left self.old }
        ensures high { IfOk result (λ part. part.high ≡ next_of (anchors self.old) low.now) }
        ensures pairs { IfOk result (λ part. part.pairs ≡ take count (range (contents self.old) low.now part.high)) }
        ensures named { IfOk result (λ part. All (λ pair. IsName pair.name × (pair.value < 2 ^ 64)) part.pairs) }
        ensures contents { contents self.new ≡ contents self.old }
        ensures anchors { anchors self.new ≡ anchors self.old }
        ensures slots { slots self.new ≡ slots self.old }
        ensures most { most self.new ≡ most self.old }
        ensures calls_left { calls_left self.old ≤ calls_left self.new + 1 }
        ensures writes_left { writes_left self.old ≤ writes_left self.new };

    /// Gives a name this number, and answers the one before. `Full` comes exactly where the map lacks the name, its
    /// target has no room for one more, and there are as many members as there can be; then it stays as it was.
    /// Otherwise a target without room is split.
    fn put(&mut self, name: &Name, value: u64) -> Result<Option<u64>, Full>
        requires calls { 0 < calls_left self.old }
        requires writes { 0 < writes_left self.old }
        ensures old { IfOk result (λ old. old ≡ at (contents self.old) name.now) }
        ensures ok { OnOk result (contents self.new ≡ insert (contents self.old) name.now value) }
        ensures splits { OnOk result (anchors self.new ≡ put_anchors (slots self.old) (contents self.old)
            (anchors self.old) name.now) }
        ensures full { IsErr result ↔ IsFullPut (slots self.old) (most self.old) (contents self.old)
            (anchors self.old) name.now }
        ensures err { OnErr result (contents self.new ≡ contents self.old) }
        ensures err_anchors { OnErr result (anchors self.new ≡ anchors self.old) }
        ensures slots { slots self.new ≡ slots self.old }
        ensures most { most self.new ≡ most self.old }
        ensures calls_left { calls_left self.old ≤ calls_left self.new + 1 }
        ensures writes_left { writes_left self.old ≤ writes_left self.new + 1 };

    /// Removes a name, and answers the number that it had; None where the map lacks it. Where its target and the next
    /// member then have few names together, that one is merged into it; its node comes back, so that there can be as
    /// many members as before.
    fn del(&mut self, name: &Name) -> Option<u64>
        requires calls { 0 < calls_left self.old }
        requires writes { 0 < writes_left self.old }
        ensures old { result ≡ at (contents self.old) name.now }
        ensures after { contents self.new ≡ remove (contents self.old) name.now }
        ensures anchors { anchors self.new ≡ del_anchors (slots self.old) (contents self.old) (anchors self.old)
            name.now }
        ensures slots { slots self.new ≡ slots self.old }
        ensures most { most self.new ≡ most self.old }
        ensures calls_left { calls_left self.old ≤ calls_left self.new + 1 }
        ensures writes_left { writes_left self.old ≤ writes_left self.new + 1 };

    /// How many names the map has.
    fn len(&self) -> u64
        ensures { result ≡ len (contents self.now) };
}
