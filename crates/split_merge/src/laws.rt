//! The laws of splits and of merges.

ghost use Rattle.split_merge.specs.Laws.{MovesAreSteps};
ghost use Rattle.split_merge.specs.OfSplits.{StagesAreOfSplits};
ghost use Rattle.split_merge.specs.SplitEvents.{SplitsHeed, FullsHeed};
ghost use Rattle.split_merge.specs.SplitLaws.{PlansCut, SplitsAreSteps, SplitsStay, SplitsAreOfFull, MergesSplitNone};
ghost use Rattle.split_merge.specs.MergeEvents.{MergesHeed};
ghost use Rattle.split_merge.specs.MergeLaws.{JoinsAreSteps, MergesAreSteps, MergesStay};

/// The plan that a split makes of a full node's words cuts the node: its upper half is the fresh node's, and its lower
/// one stays. Each turn of a move by such a plan, whatever word it is told, is a step on nodes, on the party's line, or
/// the store of a prev.
///
/// So is each turn of a split of a node that its party holds, and knows to be full. It stays one of the same node, and
/// its fields keep the same. It holds the full node for its call, alone or with the fresh one, has no change and no
/// place, and knows, until its node leads to the fresh one, that the node has a name in each slot. It is answered by
/// what it was told: that the log is full exactly where none of its caller's lines was EMPTY; else what its claim
/// heard.
pub fn split_law()
    ensures cuts { PlansCut }
    ensures moves { MovesAreSteps }
    ensures steps { SplitsAreSteps }
    ensures stays { SplitsStay }
    ensures holds { StagesAreOfSplits }
    ensures knows { SplitsAreOfFull }
    ensures heeds { SplitsHeed }
    ensures full { FullsHeed }
{}

/// Each turn of a merge of two nodes that its party holds, whatever word it is told, is a step on nodes, on the party's
/// line, or the store of a prev. Names are copied where the left node has no slot live, the left node means both ranges
/// before it leads on, the line is open by then, and at the end both nodes are given back.
///
/// Each turn from the lock of the left node on is such a step: so too where the neighbour is locked or worn, moved
/// meanwhile, or has too many names. A merge stays one of the same node, with the same line, its fields keep the same,
/// and it splits none. It answers by what it was told that it merged exactly where it got the neighbour's lock and both
/// nodes together had at most half as many names as a node has slots.
pub fn merge_law()
    ensures joins { JoinsAreSteps }
    ensures steps { MergesAreSteps }
    ensures stays { MergesStay }
    ensures splits { MergesSplitNone }
    ensures heeds { MergesHeed }
{}
