//! The laws of lone calls.

ghost use Rattle.lone_call_law.specs.Locks.{FewestLose, LocksGo, StagesLose, WornHasNone};
ghost use Rattle.lone_call_law.specs.LoneCalls.{LoneCallsBegin, LoneCallsGo, LoneCallsLose, LonePartsAreServed};
ghost use Rattle.lone_call_law.specs.LoneCalls.{LonePartsBegin};
ghost use Rattle.lone_call_law.specs.Merging.{MergeIsTried};
ghost use Rattle.lone_call_law.specs.Rooms.{AddedHadRoom, RefusedWasFull, SplitWasFull, CutHasRoom, OneSplit};
ghost use Rattle.lone_call_law.specs.Rooms.{FullIsFirst};
ghost use Rattle.lone_call_law.specs.Shapes.{RoomIsNoSplit, CutIsSplit, FullIsNoRoom, NoRoomIsFull};
ghost use Rattle.lone_call_law.specs.Splitting.{SplitsComeThere};
ghost use Rattle.lone_call_law.specs.Targets.{TargetStands};
ghost use Rattle.lone_call_law.specs.There.{LooksComeThere, RestIsStill, IdleIsQuiet};
ghost use Rattle.lone_call_law.specs.Tries.{TriesGo, TriesEnd};

/// A look-up that nobody disturbs comes to the target of its name. Where nobody is about a call, walks come to their
/// targets from every node. While the version word of a walk's target stands, the target is listed with the bounds that
/// the walk told, whatever other parties do.
pub fn looks_come_there()
    ensures still { RestIsStill }
    ensures quiet { IdleIsQuiet }
    ensures comes { LooksComeThere }
    ensures stands { TargetStands }
{}

/// What a try of any call, by kinds of step alone, leaves and answers where no other call is in flight.
pub fn lone_tries()
    ensures goes { TriesGo }
    ensures ends { TriesEnd }
{}

/// Whether a put finds room is told by the index before it and after it.
pub fn rooms()
    ensures added { AddedHadRoom }
    ensures refused { RefusedWasFull }
    ensures split { SplitWasFull }
    ensures cut { CutHasRoom }
    ensures one { OneSplit }
    ensures first { FullIsFirst }
{}

/// Each turn of a lone call, whatever its op, and how it is answered. To this law a part of a range scan is a get of
/// its low name. At each moment each node has lost one lock at most. A part whose node's permutation was made at its
/// version word changes no word and sorts nothing.
pub fn lone_calls()
    ensures begins { LoneCallsBegin }
    ensures parts_begin { LonePartsBegin }
    ensures goes { LoneCallsGo }
    ensures loses { LoneCallsLose }
    ensures serves { LonePartsAreServed }
{}

/// A try of a call that is made with no other in flight takes one lock of each node at most, wherever it is cut off.
pub fn lone_locks()
    ensures goes { LocksGo }
    ensures stages { StagesLose }
    ensures fewest { FewestLose }
    ensures worn { WornHasNone }
{}

/// What a lone put makes of the shape: where it has room it splits nothing, a cut for its name is its split, and it
/// finds no room exactly where its target is full and no node is FREE. A delete that merges by the shape tries to, for
/// which it takes a log line. A split that nobody disturbs takes one exactly where its caller has an EMPTY one, and
/// then claims a node exactly where one is FREE whose lock can be taken.
pub fn lone_shapes()
    ensures room { RoomIsNoSplit }
    ensures cut { CutIsSplit }
    ensures full { FullIsNoRoom }
    ensures no_room { NoRoomIsFull }
    ensures tried { MergeIsTried }
    ensures splits { SplitsComeThere }
{}
