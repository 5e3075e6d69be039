//! The laws of the machines, which the index rests on.

ghost use Rattle.node_ops.specs.Laws.{TurnsAreFootSteps, TurnsAreSteps, LeadsAreTaken, TurnsStaySound};
ghost use Rattle.node_ops.specs.Laws.{SplitsAreOfFullNodes, TurnsKeepOp};
ghost use Rattle.node_ops.specs.Permuting.{TurnsPermute, TurnsReread};
ghost use Rattle.node_ops.specs.Laws.{CountsOwnChange, HoldsOwnName, PendingIsOwnChange, OpIsTold};

/// Each turn of a sound call, whatever number it is told, is a step of one of the kinds, with the answer of the turn:
/// on nodes, on a log line of its caller, or the store of a prev. Where a node that it holds leads to one of the
/// layout's, the number is one that its machine takes. Each turn leaves the call sound. One that splits a node knows,
/// until that leads to the fresh one, that it has a name in each slot.
///
/// Each turn stores a word of the permutation of the node that the call holds, and leaves its stage, or stores none,
/// and keeps or lets go what it had stored; and what it has read of a permutation begins with the load of its version,
/// goes on with its words, stays or ends.
pub fn turn_law()
    ensures feet { TurnsAreFootSteps }
    ensures steps { TurnsAreSteps }
    ensures taken { LeadsAreTaken }
    ensures sound { TurnsStaySound }
    ensures full { SplitsAreOfFullNodes }
    ensures stores { TurnsPermute }
    ensures reads { TurnsReread }
{}

/// Each turn leaves a call one of the same op, and it is of no other than the one that its machine tells. It counts its
/// own op's change, and holds its node for its own op's name. The change that it has pending, which the words of its
/// node show already, is its own op's.
pub fn op_law()
    ensures kept { TurnsKeepOp }
    ensures told { OpIsTold }
    ensures change { CountsOwnChange }
    ensures name { HoldsOwnName }
    ensures pending { PendingIsOwnChange }
{}

ghost use Rattle.node_ops.specs.DelEvents.{DelsHeed};
ghost use Rattle.node_ops.specs.Landings.{TurnsLand};
ghost use Rattle.node_ops.specs.Endings.{TurnsKeepPlace, LastCountsNothing, PlacedIsInTime};
ghost use Rattle.node_ops.specs.Endings.{DoneIsCounted, SpentIsLate, NoFreeIsOfPuts, RefusedIsUncounted};

/// A call keeps its place, or takes the one that its add to the clock gives, before its last turn and in time. One that
/// is done has a place exactly if it is a write that was counted there, and tells the hops of its walk. It has the node
/// and the hops of its walk from the turn on that ends the walk at its target, and no other turn changes the call.
///
/// A call is answered that it is spent only where the clock that it loaded had reached its limit. One that is turned
/// back or worn was not counted, and only a put is turned back because no node is free. A delete is answered that the
/// log is full only where it was told that none of its caller's lines was EMPTY.
pub fn answer_law()
    ensures kept { TurnsKeepPlace }
    ensures last { LastCountsNothing }
    ensures in_time { PlacedIsInTime }
    ensures done { DoneIsCounted }
    ensures lands { TurnsLand }
    ensures spent { SpentIsLate }
    ensures uncounted { RefusedIsUncounted }
    ensures no_free { NoFreeIsOfPuts }
    ensures heeds { DelsHeed }
{}

ghost use Rattle.node_ops.specs.Costs.{PutsSpareSplits, TurnsSpare, WalksEndSo};

/// With each turn that doesn't end it a call has less left, also together with what it spares: the hops that its walk
/// didn't make, and a split that a put doesn't make, as one doesn't that takes place. A call that ends while it walks
/// is answered that its node is worn, or that the walk gave up.
pub fn cost_law()
    ensures spare { TurnsSpare }
    ensures ends { WalksEndSo }
    ensures splits { PutsSpareSplits }
{}

ghost use Rattle.node_ops.specs.Parts.{PartTells, PartsHear, PartsEnd, PartsEndThere, EndsAreHeld, EndsStay};
ghost use Rattle.node_ops.specs.Parts.{EndsAreRanges, ListedIsTold, ListedIsAnswered, DoneIsListed, CountStays};

/// A part that is answered lists the first names of its node's range from the low one on, with their numbers, as the
/// map has them and as it had them at the part's place, and tells the node, the hops and the version word of its call.
pub fn parts_tell()
    ensures tells { PartTells }
    ensures hears { PartsHear }
{}

/// A part that is answered tells the anchor of the next node, where its node's range ends, so the range's names from
/// the low one on are those below that anchor. What it knows of that beside its stage, of the node that it holds, each
/// of its turns keeps.
pub fn parts_end_at_next()
    ensures ends { PartsEnd }
    ensures held { EndsAreHeld }
    ensures stays { EndsStay }
    ensures there { PartsEndThere }
    ensures ranges { EndsAreRanges }
{}

/// A part that has listed is answered with what it lists, if its last action gives the version word that it tells, and
/// no part is done otherwise.
pub fn listing_law()
    ensures told { ListedIsTold }
    ensures answered { ListedIsAnswered }
    ensures done { DoneIsListed }
    ensures count { CountStays }
{}

ghost use Rattle.node_ops.specs.Rechecks.{PartsAreKnown, PartsAreFew, KnownIsKept, StatusesLeaveKnown};
ghost use Rattle.node_ops.specs.Rechecks.{RechecksAreTold, RechecksStaySure, RechecksOutlast, RechecksTell, SameTells};

/// Of a part that is done it is known, once its last action is done, what the map has on its node's range while the
/// version word is the one that it tells. Each step of a call keeps that, and each step of a turn.
pub fn known_law()
    ensures known { PartsAreKnown }
    ensures few { PartsAreFew }
    ensures kept { KnownIsKept }
    ensures turned { StatusesLeaveKnown }
{}

/// A recheck is answered that all is the same exactly where it finds the version word that it was handed, at a place
/// between its begin and its end. Then each known part that tells this version word of this node lists what the map has
/// at each place from the part's on to that one.
pub fn recheck_law()
    ensures told { RechecksAreTold }
    ensures sure { RechecksStaySure }
    ensures outlasts { RechecksOutlast }
    ensures tells { RechecksTell }
    ensures same { SameTells }
{}
