//! The way of a change's key, and its end.

ghost use Rattle.std.specs.Prelude.{◌≡◌, ◌≢◌, ◌<◌, ◌≤◌, ◌^◌};

use crate::change::{Change, ChangeAt, Ended, Site};
use pm_words::codes::reference::LEAF;
use radix_nodes::KEY_BYTES;
use tree_change::{Finish, Take, Target, TargetStore};
use tree_floor::{KEY_WORDS, byte_of};
use tree_look::{Looked, Spot};

impl Change {
    ghost use Rattle.std.specs.Prelude.{◌≡◌, ◌≢◌, ◌≤◌, ◌<◌, ◌^◌};
    ghost use Rattle.pm_words.specs.Turns.{AdvancesTo};
    ghost use Rattle.pm_words.specs.Layouts.{IsLayout};
    ghost use Rattle.pm_words.specs.Locations.{leaf_count};
    ghost use Rattle.tree_look.specs.declared.look.Look.{Look};
    ghost use Rattle.tree_look.specs.LookLaws.{IsInRange};
    ghost use Rattle.tree_change.specs.Finishes.{IsTarget, IsMarked};
    ghost use Rattle.tree_update.specs.declared.change.ChangeAt.TheVariants as ChangeAt;
    ghost use Rattle.tree_update.specs.Changes.{change_takes, looks, has_looked, at_leaf, no_leaf, change_finishes};

    /// A word of the key's way, which ends with the last one.
    pub(crate) fn looks(&mut self, got: u64) -> Option<Ended>
        requires { change_takes self.old got }
        ensures { (look : Look) → self.old.at ≡ ChangeAt.Looking look
            → AdvancesTo (looks self.old look got) self.new result }
    {
        let ChangeAt::Looking { look } = &mut self.at else {
            return None;
        };
        let looked = look.advance(got)?;
        self.has_looked(looked)
    }

    /// The way has ended there.
    fn has_looked(&mut self, looked: Looked) -> Option<Ended>
        requires layout { IsLayout self.old.layout }
        requires looked { IsInRange self.old.layout looked }
        ensures { AdvancesTo (has_looked self.old looked) self.new result }
    {
        match looked {
            Looked::Key { outer, inner, leaf } => self.at_leaf(outer, inner, leaf),
            Looked::Nothing { spot, cell, depth } => {
                let byte = byte_of(self.key, depth);
                self.no_leaf(Site::Under { spot, cell, byte })
            }
            Looked::Parts {
                spot,
                reference,
                depth,
                byte,
            } => {
                if KEY_BYTES <= depth || byte == byte_of(self.key, depth) {
                    return Some(Ended::Wrong);
                }
                self.no_leaf(Site::Beside {
                    spot,
                    reference,
                    depth,
                    byte,
                })
            }
            Looked::Wrong => Some(Ended::Wrong),
        }
    }

    /// At the key's leaf: a set stores the node word, an unset looks at the leaf's cell.
    fn at_leaf(&mut self, outer: Spot, inner: Spot, leaf: u64) -> Option<Ended>
        requires layout { IsLayout self.old.layout }
        requires leaf { leaf < leaf_count self.old.layout }
        ensures { AdvancesTo (at_leaf self.old outer inner leaf) self.new result }
    {
        if self.word != 0 {
            let target = Target::Leaf {
                leaf,
                offset: KEY_WORDS,
            };
            return self.finishes(target, self.word, 0, 0);
        }
        // The tree has a leaf of another key, so this one is in a cell.
        if inner.cell == 0 {
            return Some(Ended::Wrong);
        }
        self.goes_to(ChangeAt::ReadingDepth { leaf, outer, inner })
    }

    /// The key has no leaf: a set takes one for it, an unset is done.
    fn no_leaf(&mut self, site: Site) -> Option<Ended>
        requires layout { IsLayout self.old.layout }
        ensures { AdvancesTo (no_leaf self.old site) self.new result }
    {
        if self.word == 0 {
            return Some(Ended::Made);
        }
        let take = Take::new(self.layout, LEAF);
        self.goes_to(ChangeAt::TakingLeaf { take, site })
    }

    /// It ends by the store of this word there, behind which what these references lead to is free; 0 for none.
    pub(crate) fn finishes(
        &mut self,
        target: Target,
        word: u64,
        free: u64,
        next: u64,
    ) -> Option<Ended>
        requires layout { IsLayout self.old.layout }
        requires target { IsTarget self.old.layout target }
        requires free { free ≢ 0 → IsMarked self.old.layout free }
        requires next { next ≢ 0 → IsMarked self.old.layout next }
        ensures { AdvancesTo (change_finishes self.old target word free next) self.new result }
    {
        let finish = Finish::new(self.layout, TargetStore { target, word }, free, next);
        self.goes_to(ChangeAt::Finishing { finish })
    }
}
