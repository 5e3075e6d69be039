//! Laws on a row whose tree was marked, for the proofs of crates above. The functions do nothing: each names what is
//! proved.

ghost use Rattle.tree_marks.specs.Laws.{MarkedByWalk, MarkedIsAtRest, MarksTellExactly, MarkingKeepsOthers};
ghost use Rattle.tree_marks.specs.Laws.{CrashLeavesImage};

/// Of a row that is made of an image with a tree in order, which the walk marks: once it is marked the layer is at
/// rest, so that a change may begin. The marks tell exactly what the root leads to, so that whatever else was filled is
/// free. No other word has changed, so that a crash leaves the image as it was.
pub fn marked_law()
    ensures walk { MarkedByWalk }
    ensures rest { MarkedIsAtRest }
    ensures exact { MarksTellExactly }
    ensures others { MarkingKeepsOthers }
    ensures crash { CrashLeavesImage }
{}
