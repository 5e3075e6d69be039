//! Laws on the words of the layer in a row, for the proofs of crates above. The functions do nothing: each names what
//! is proved.

ghost use Rattle.tree_row.specs.Rows.{ReadsWords, ReadsFit, RowsAlike, CrashReads, ImageReads};
ghost use Rattle.tree_row.specs.Rows.{FreshReads, FreshKeeps};
ghost use Rattle.tree_row.specs.Rows.{LoadLeaves, StoreMakes, DrainMakes, OutsideLeaves, EvictionMixes};
ghost use Rattle.tree_row.specs.RowMarks.{MarkIsSet, StoreLeavesMarks, LoadLeavesMarks, EvictionLeavesMarks};
ghost use Rattle.tree_row.specs.RowMarks.{ImageHasNoMarks};

/// Each word of the layer is read where it stands, and no other word of the row makes a difference. The image that a
/// crash leaves has the layer of the durable twin, and both twins of a row that is made of an image have that of the
/// image.
pub fn reading_law()
    ensures reads { ReadsWords }
    ensures fits { ReadsFit }
    ensures alike { RowsAlike }
    ensures crash { CrashReads }
    ensures image { ImageReads }
{}

/// A fresh image has the layer of an empty catalogue: in order, with the zero key alone, which leads to node 0.
pub fn fresh_law()
    ensures reads { FreshReads }
    ensures keeps { FreshKeeps }
{}

/// A load leaves the words of the layer in both twins, and so does a store of any word that isn't of the layer. A store
/// of a word of the layer changes that one in the cached twin, a drain in the durable twin, and whatever becomes
/// durable by itself makes a mix of both.
pub fn action_law()
    ensures loads { LoadLeaves }
    ensures stores { StoreMakes }
    ensures drains { DrainMakes }
    ensures outside { OutsideLeaves }
    ensures evicts { EvictionMixes }
{}

/// A store of a mark sets that one alone; a store elsewhere, a load and whatever becomes durable by itself leave all. A
/// row that is made of an image has none.
pub fn mark_law()
    ensures sets { MarkIsSet }
    ensures stores { StoreLeavesMarks }
    ensures loads { LoadLeavesMarks }
    ensures evicts { EvictionLeavesMarks }
    ensures image { ImageHasNoMarks }
{}
