//! Laws of shapes, each named by the contract of a function.

ghost use Rattle.shapes.specs.Runs.{OneNodeRounds, TimelyRoundsArePaid};
ghost use Rattle.shapes.specs.ShapeRounds.{LoneRoundsKeepShape, RoundsArePaid};
ghost use Rattle.shapes.specs.Laws.{MembersPartNames, PutAgrees, DeleteAgrees, PartsAgree, FreshIsShape, PutKeepsShape};
ghost use Rattle.shapes.specs.Laws.{DeleteKeepsShape, SplitIsEnough, PutWeighs, DeleteWeighs, FullWeighs};
ghost use Rattle.shapes.specs.Laws.{OneNodeIsRoom, HalfIsSplit, DropIsMerge, ScansAreOne, ScansAreShort};

/// The members part the names of the map among them.
pub fn parts_law()
    ensures { MembersPartNames }
{}

/// Puts, deletes and bounds of scan parts by the anchors are those of the list of members.
pub fn shape_law()
    ensures put { PutAgrees }
    ensures del { DeleteAgrees }
    ensures part { PartsAgree }
    ensures one_node { OneNodeIsRoom }
{}

/// What the shape says of a scan that is answered at once: which parts it has, and how many at most.
pub fn scan_law()
    ensures one { ScansAreOne }
    ensures few { ScansAreShort }
{}

/// What nodes can hold, they can hold after each call.
pub fn keeps_law()
    ensures fresh { FreshIsShape }
    ensures put { PutKeepsShape }
    ensures del { DeleteKeepsShape }
{}

/// One split is enough.
pub fn split_law()
    ensures { SplitIsEnough }
{}

/// What calls make of the weight.
pub fn weight_law()
    ensures put { PutWeighs }
    ensures del { DeleteWeighs }
    ensures full { FullWeighs }
{}

/// What a lone round makes of the shape, and that each full answer is paid for, from round to round.
pub fn round_law()
    ensures lone { LoneRoundsKeepShape }
    ensures rounds { RoundsArePaid }
{}

/// What a switch store makes of the anchors is what the call makes of them.
pub fn switch_law()
    ensures split { HalfIsSplit }
    ensures merge { DropIsMerge }
{}

/// On one node, full by the shape is full by the room.
pub fn run_law()
    ensures { OneNodeRounds }
{}

/// What a lone round under a limit makes of the shape, and that each full answer is paid for.
pub fn paid_law()
    ensures { TimelyRoundsArePaid }
{}
