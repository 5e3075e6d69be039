//! An unset of a key that the tree has, from its leaf's cell.

ghost use Rattle.std.specs.Prelude.{◌≡◌, ◌<◌};

use crate::change::{Change, ChangeAt, Ended};
use crate::setting::spot_target;
use pm_words::codes::reference::{FORM_48, KIND};
use pm_words::offsets::cell::FIRST;
use radix_nodes::{ENTRY, KEY_BYTES, byte_set};
use tree_change::{Count, Counted, Target};
use tree_floor::byte_of;
use tree_look::Spot;

impl Change {
    ghost use Rattle.std.specs.Prelude.{◌≡◌, ◌≢◌, ◌≤◌, ◌<◌, ◌^◌, ℕ};
    ghost use Rattle.pm_words.specs.Turns.{AdvancesTo};
    ghost use Rattle.pm_words.specs.Layouts.{IsLayout};
    ghost use Rattle.pm_words.specs.Locations.{leaf_count};
    ghost use Rattle.tree_law.specs.Words.{kind_of};
    ghost use Rattle.tree_floor.specs.Floors.{IsCellOf};
    ghost use Rattle.tree_look.specs.Looks.{IsSpot};
    ghost use Rattle.tree_update.specs.declared.change.ChangeAt.TheVariants as ChangeAt;
    ghost use Rattle.tree_update.specs.Changes.{change_takes, reads_depth, counts, counted, reads_index};

    /// The depth of the leaf's cell.
    pub(crate) fn reads_depth(
        &mut self,
        leaf: u64,
        outer: Spot,
        inner: Spot,
        got: u64,
    ) -> Option<Ended>
        requires layout { IsLayout self.old.layout }
        requires cell { IsCellOf self.old.layout inner.cell }
        ensures { AdvancesTo (reads_depth self.old leaf outer inner got) self.new result }
    {
        if KEY_BYTES <= got {
            return Some(Ended::Wrong);
        }
        let count = Count::new(self.layout, inner.cell, byte_of(self.key, got));
        self.goes_to(ChangeAt::Counting {
            count,
            leaf,
            outer,
            inner,
        })
    }

    /// A word of the cell, as it counts the other children.
    pub(crate) fn counts(&mut self, got: u64) -> Option<Ended>
        requires { change_takes self.old got }
        ensures { (count : Count) (leaf : ℕ) (outer inner : Spot)
            → self.old.at ≡ ChangeAt.Counting count leaf outer inner
            → AdvancesTo (counts self.old count leaf outer inner got) self.new result }
    {
        let ChangeAt::Counting {
            count,
            leaf,
            outer,
            inner,
        } = &mut self.at
        else {
            return None;
        };
        let counting = *count;
        let children = count.advance(got)?;
        let (leaf, outer, inner) = (*leaf, *outer, *inner);
        self.counted(counting, leaf, outer, inner, children)
    }

    /// The leaf's cell has these other children.
    fn counted(
        &mut self,
        count: Count,
        leaf: u64,
        outer: Spot,
        inner: Spot,
        children: Counted,
    ) -> Option<Ended>
        requires layout { IsLayout self.old.layout }
        requires cell { IsCellOf self.old.layout count.cell }
        requires is { count.cell ≡ inner.cell }
        requires leaf { leaf < leaf_count self.old.layout }
        requires outer { IsSpot self.old.layout outer }
        requires inner { IsSpot self.old.layout inner }
        ensures { AdvancesTo (counted self.old count leaf outer inner children) self.new result }
    {
        match children {
            Counted::Two => {
                if count.cell / KIND == FORM_48 {
                    return self.goes_to(ChangeAt::ReadingIndex {
                        cell: count.cell,
                        byte: count.byte,
                        leaf,
                    });
                }
                self.finishes(spot_target(inner), 0, KIND + leaf, 0)
            }
            Counted::One { reference } => {
                if ENTRY <= reference {
                    return Some(Ended::Wrong);
                }
                let word = outer.high + reference;
                self.finishes(spot_target(outer), word, KIND + leaf, count.cell)
            }
            // Each cell of the tree has two children.
            Counted::Absent => Some(Ended::Wrong),
        }
    }

    /// The byte's word of the cell's index.
    pub(crate) fn reads_index(&mut self, cell: u64, byte: u64, leaf: u64, got: u64) -> Option<Ended>
        requires layout { IsLayout self.old.layout }
        requires cell { IsCellOf self.old.layout cell }
        requires form { kind_of cell ≡ 4 }
        requires byte { byte < 256 }
        requires leaf { leaf < leaf_count self.old.layout }
        ensures { AdvancesTo (reads_index self.old cell byte leaf got) self.new result }
    {
        let offset = FIRST + byte / 8;
        let word = byte_set(got, byte % 8, 0);
        self.finishes(Target::Cell { cell, offset }, word, KIND + leaf, 0)
    }
}
