//! Laws on looks, for the proofs of crates above. The functions do nothing: each names what is proved.

ghost use Rattle.tree_look.specs.FindLaws.{FindsEnd, FindsAreExact};
ghost use Rattle.tree_look.specs.Depths.{KeysPart, PartsBefore};
ghost use Rattle.tree_look.specs.LookLaws.{LookStays, LookIsExact};
ghost use Rattle.tree_look.specs.Ends.{KeyIsSet, LeafIsAdded, CellIsGrown, PairIsMade, LeafIsRemoved};
ghost use Rattle.tree_look.specs.Ends.{CellIsCollapsed, IsInCell};
ghost use Rattle.tree_look.specs.EndReaches.{LeafAddReaches, CellGrowReaches, PairMakeReaches, LeafRemoveReaches};
ghost use Rattle.tree_look.specs.EndReaches.{CellCollapseReaches};

/// A look into a cell ends, and in a cell of its form it finds where the child's reference stands.
pub fn find_law()
    ensures ends { FindsEnd }
    ensures exact { FindsAreExact }
{}

/// Where two keys part.
pub fn depth_law()
    ensures part { KeysPart }
    ensures before { PartsBefore }
{}

/// A look ends whatever it is told, and finds the end of its key's way where the words stay as they are.
pub fn look_law()
    ensures stays { LookStays }
    ensures exact { LookIsExact }
{}

/// From where a look has ended to the store that makes the change: a set of a key that is there, a leaf into a cell
/// that has room, a larger cell, a pair; a leaf out of its cell, or the other child in the place of a cell of two.
pub fn end_law()
    ensures sets { KeyIsSet }
    ensures adds { LeafIsAdded }
    ensures grows { CellIsGrown }
    ensures pairs { PairIsMade }
    ensures removes { LeafIsRemoved }
    ensures collapses { CellIsCollapsed }
    ensures in_cell { IsInCell }
{}

/// What the tree reaches once that store is made.
pub fn reach_law()
    ensures adds { LeafAddReaches }
    ensures grows { CellGrowReaches }
    ensures pairs { PairMakeReaches }
    ensures removes { LeafRemoveReaches }
    ensures collapses { CellCollapseReaches }
{}
