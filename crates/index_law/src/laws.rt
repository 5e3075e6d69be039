//! The laws of a lawful index, each named by the contract of a function.

ghost use Rattle.index_law.specs.Anchors.{ListHasAnchors, RangesAreMembers, StepMovesAnchors, NodesHoldShape};
ghost use Rattle.index_law.specs.Anchors.{NodesAreCounted, IdleHasShape};
ghost use Rattle.index_law.specs.AnySteps.{AnyIsAllowed, AnyCanAct, BesideKeeps, AnyStepKeeps, AnyStepWeighs};
ghost use Rattle.index_law.specs.AnySteps.{HeldRangesStay};
ghost use Rattle.index_law.specs.Beside.{NodesLeaveOthers, PrevsKeep};
ghost use Rattle.index_law.specs.Claims.{ClaimedAreOutside, CleanLinesAreDurable};
ghost use Rattle.index_law.specs.Footed.{EvictIsFooted, StartIsFooted, AlikeIsFooted, RestIsFooted, RoundIsFooted};
ghost use Rattle.index_law.specs.Footed.{StampIsFooted, FreshIsFooted};
ghost use Rattle.index_law.specs.Footings.{FootStepIsAny, FootStepKeeps};
ghost use Rattle.index_law.specs.Images.{CrashLeavesSound};
ghost use Rattle.index_law.specs.InUse.{UseWeighs};
ghost use Rattle.index_law.specs.Joint.{NodeStepKeeps, LineStepKeeps};
ghost use Rattle.index_law.specs.Laws.{StepIsAllowed, AllowedMayName, AllowedCanAct, StepKeeps, StartKeeps, JoinKeeps};
ghost use Rattle.index_law.specs.Laws.{EvictKeeps, DurablesAreAList, CrashLeavesEnd, RestIsLawful, IdleIsAtRest};
ghost use Rattle.index_law.specs.Laws.{NextRoundIsAtRest, FreshIsAtRest};
ghost use Rattle.index_law.specs.Lines.{NotesKeep, NodesLeaveLines, EvictFits};
ghost use Rattle.index_law.specs.LoneShapes.{StepCountsGone, NoFreeIsNoRoom, NoFreeIsEach, NoFreeWeighs, NoSwitchIsPut};
ghost use Rattle.index_law.specs.LoneShapes.{FreeIsRoom, SwitchIsPut, SwitchIsDelete, NoSwitchIsDelete, StepSplits};
ghost use Rattle.index_law.specs.LoneShapes.{StepKeepsPut, StepMergesOnce, StepKeepsDel, PutEnds, PutEndsFull, DelEnds};
ghost use Rattle.index_law.specs.LoneShapes.{MeetsCrowded, HoldsAlone};
ghost use Rattle.index_law.specs.Prevs.{StepTraces, PrevTraces, EvictTraces, StartTraces, GoneComeOut, PrevsAreNodes};
ghost use Rattle.index_law.specs.Prevs.{RestIsTraced, IdleFollow};
ghost use Rattle.index_law.specs.Shapes.{StepShapes};
ghost use Rattle.index_law.specs.Standing.{FreeNodesStand, StandingIsKept, ReadsStand};
ghost use Rattle.index_law.specs.Weights.{StepWeighs, StartWeighs, JoinWeighs, EvictWeighs, IdleWeighs, CrashWeighs};
ghost use Rattle.index_law.specs.Whole.{NodeStepKeepsAll, LineStepKeepsAll, PrevStepKeepsAll};

/// A step, whatever number it is told, is by an action that its party may do. The action names a place that an action
/// may name, whatever the words are, can be done, and the number that it gives may be told. The step keeps the index
/// lawful, and an answer is legal.
pub fn step_law()
    ensures allowed { StepIsAllowed }
    ensures named { AllowedMayName }
    ensures can { AllowedCanAct }
    ensures keeps { StepKeeps }
{}

/// The start of a call keeps the index lawful, and so do a party that comes to the others and a word that becomes
/// durable.
pub fn start_law()
    ensures start { StartKeeps }
    ensures join { JoinKeeps }
    ensures evict { EvictKeeps }
{}

/// An index in which nothing is in flight is lawful. So it is in a lawful index whose parties are all idle: each node
/// is free then, and each means the map. It is so as another round begins where nothing was in flight, and in the row
/// of a fresh image.
pub fn rest_law()
    ensures lawful { RestIsLawful }
    ensures idle { IdleIsAtRest }
    ensures round { NextRoundIsAtRest }
    ensures fresh { FreshIsAtRest }
{}

/// A step raises the weight sum by at most one, and only where a put adds a name. The sum is the weight, and one for
/// each delete whose node shows it, and weighs less for it, while the history doesn't have it. A start leaves that sum
/// as it is, and so do a party that comes to the others and a word that becomes durable. Where all parties are idle it
/// is the weight. Where no node is FREE, and each that is about to be split has a name in each slot, it is at least
/// half of all slots. Whenever a crash comes, what is durable weighs no more than the sum.
pub fn weight_law()
    ensures step { StepWeighs }
    ensures start { StartWeighs }
    ensures join { JoinWeighs }
    ensures evict { EvictWeighs }
    ensures idle { IdleWeighs }
    ensures used { UseWeighs }
    ensures crash { CrashWeighs }
{}

/// Whatever words are durable, they make a list, of listed nodes, and each means the map on its range there, or the map
/// with a change that some call has pending. So the map that a crash leaves is the one after those of the changes cut
/// off that are found in it. Whenever a crash comes while the log lines are in order, it leaves a sound image, which
/// keeps that map, and weighs no more than the sum.
pub fn crash_law()
    ensures durable { DurablesAreAList }
    ensures end { CrashLeavesEnd }
    ensures image { CrashLeavesSound }
{}

/// A step on a log line keeps the index lawful and all lines in order.
pub fn notes_law()
    ensures notes { NotesKeep }
    ensures nodes { NodesLeaveLines }
    ensures evict { EvictFits }
{}

/// Steps on nodes and steps on lines keep an index with the lines that its parties have.
pub fn joint_law()
    ensures nodes { NodeStepKeeps }
    ensures lines { LineStepKeeps }
{}

/// Steps on nodes leave all words beside nodes, and the store of a prev keeps the index lawful, its lines in order and
/// each prev a node.
pub fn others_law()
    ensures nodes { NodesLeaveOthers }
    ensures prevs { PrevsKeep }
{}

/// A step leaves the list as it is, or it is the switch of a split, which cuts one full member in two, or that of a
/// merge, with which a member joins the one before it. The anchors of a list are anchors, and ranges are members. A
/// step leaves them, or it is the switch of a split or of a merge. Where listed nodes mean the map they hold the shape,
/// and the index weighs what that does, with half a node's slots for each GONE node.
pub fn anchors_law()
    ensures shapes { StepShapes }
    ensures anchors { ListHasAnchors }
    ensures members { RangesAreMembers }
    ensures step { StepMovesAnchors }
    ensures nodes { NodesHoldShape }
    ensures counted { NodesAreCounted }
    ensures idle { IdleHasShape }
{}

/// A switch is the split of a put of its call's name, or the merge of a delete of it, and where a call makes none its
/// put splits nothing, or its delete merges nothing. A node more is GONE only where a merge makes it so. A put finds no
/// room exactly where no node is FREE.
pub fn lone_law()
    ensures splits { StepSplits }
    ensures put { SwitchIsPut }
    ensures put_alone { NoSwitchIsPut }
    ensures put_stands { StepKeepsPut }
    ensures put_ends { PutEnds }
    ensures put_full { PutEndsFull }
    ensures del { SwitchIsDelete }
    ensures del_alone { NoSwitchIsDelete }
    ensures once { StepMergesOnce }
    ensures del_stands { StepKeepsDel }
    ensures del_ends { DelEnds }
    ensures crowded { MeetsCrowded }
    ensures alone { HoldsAlone }
    ensures gone { StepCountsGone }
    ensures no_room { NoFreeIsNoRoom }
    ensures each { NoFreeIsEach }
    ensures full_weighs { NoFreeWeighs }
    ensures room { FreeIsRoom }
{}

/// Steps on nodes, and stores of their prevs, keep each listed node's prev, where none is owed, and the order of the
/// GONE nodes.
pub fn prev_law()
    ensures nodes { StepTraces }
    ensures prevs { PrevTraces }
    ensures evict { EvictTraces }
    ensures start { StartTraces }
    ensures out { GoneComeOut }
    ensures within { PrevsAreNodes }
    ensures rest { RestIsTraced }
    ensures idle { IdleFollow }
{}

/// Steps on nodes, on lines and on prevs keep an index with the lines and the debts that its parties have.
pub fn whole_law()
    ensures nodes { NodeStepKeepsAll }
    ensures lines { LineStepKeepsAll }
    ensures prevs { PrevStepKeepsAll }
{}

/// From the claim of a node until the switch the node isn't listed, and the claimer has it locked. What a party knows
/// of its line is durable where none of its words may differ from their durable twins.
pub fn claim_law()
    ensures outside { ClaimedAreOutside }
    ensures lines { CleanLinesAreDurable }
{}

/// A step beside nodes, on a log line or a prev, leaves what is said of nodes. So all steps of a party, on nodes or
/// beside them, are by actions that can be done, keep the index lawful, have legal answers, and raise the weight sum
/// only where a put adds a name. As long as a party holds a node, the steps of the others leave the names that belong
/// there.
pub fn any_step_law()
    ensures allowed { AnyIsAllowed }
    ensures can { AnyCanAct }
    ensures beside { BesideKeeps }
    ensures keeps { AnyStepKeeps }
    ensures weighs { AnyStepWeighs }
    ensures ranges { HeldRangesStay }
{}

/// A step of a party that has a log line, or knows or owes prevs, is one of all steps; and with the index it keeps what
/// all parties have of lines and prevs, and that each log line is in some party's hand or needs none. That is kept by a
/// word that becomes durable, by a call that begins, by parties with the same, by other idle parties where no call is
/// in flight, by a next round, and by another stamp of a node; and it holds of the row of a fresh image.
pub fn foot_law()
    ensures any { FootStepIsAny }
    ensures keeps { FootStepKeeps }
    ensures evict { EvictIsFooted }
    ensures start { StartIsFooted }
    ensures alike { AlikeIsFooted }
    ensures rest { RestIsFooted }
    ensures round { RoundIsFooted }
    ensures stamp { StampIsFooted }
    ensures fresh { FreshIsFooted }
{}

/// A step that leaves the version word of a free node as it was leaves that node, its range, and on it the map after
/// the history, as they were, and no step lowers a version word. So what was told of names of a node's range stands, at
/// every place since, while the node's version word does.
pub fn standing_law()
    ensures free { FreeNodesStand }
    ensures kept { StandingIsKept }
    ensures reads { ReadsStand }
{}
