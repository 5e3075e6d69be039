//! Laws on the machines of a change, for the proofs of crates above. The functions do nothing: each names what is
//! proved.

ghost use Rattle.tree_change.specs.Others.{OthersEnd, CountsAreExact};
ghost use Rattle.tree_change.specs.Counts.{CountStays, CountIsExact};
ghost use Rattle.tree_change.specs.Counted.{TwoAreMore, OneIsMore};
ghost use Rattle.tree_change.specs.Finishes.{FinishStays};
ghost use Rattle.tree_change.specs.Endings.{FinishTurns, EndStepKeeps, EndingDrains, EndingMixes, SwitchBegins};
ghost use Rattle.tree_change.specs.Rooms.{RoomsEnd, RoomsAreExact, AddBegins, QuietBegins};
ghost use Rattle.tree_change.specs.FindRooms.{FindRoomStays, FindRoomIsExact};
ghost use Rattle.tree_change.specs.Filled.{LeafIsFilled, PairIsFilled, LargerIsFilled};
ghost use Rattle.tree_change.specs.Reads.{ReadStays, ReadIsExact, ReadIsCell};
ghost use Rattle.tree_change.specs.Takes.{TakeStays, TakeMarks, TakeIsExact};
ghost use Rattle.tree_change.specs.Takes.{TakenIsUnreached, UnreachedStays, SomeIsTaken, TakeSets, FreeSets};
ghost use Rattle.tree_change.specs.Fillings.{FillBegins, LeafTurns, CellTurns, FillStepKeeps, FillingDrains};
ghost use Rattle.tree_change.specs.Fillings.{FillingMixes};
ghost use Rattle.tree_change.specs.Acts.{ActionHappens, FinishHappens, LeafHappens, CellHappens, TakeLeaves};
ghost use Rattle.tree_change.specs.MarkSteps.{TakeMakesMarks, FinishMakesMarks, LeafLeavesMarks, CellLeavesMarks};
ghost use Rattle.tree_change.specs.RowSteps.{FinishActs, FinishEvicts, FinishCrashes};
ghost use Rattle.tree_change.specs.RowSteps.{LeafActs, CellActs, FillEvicts, FillCrashes};
ghost use Rattle.tree_change.specs.Begins.{SetBegins, PairBegins, GrowBegins, RemoveBegins, ClearBegins};
ghost use Rattle.tree_change.specs.Begins.{UnindexBegins, CollapseBegins};

/// A count of the other children of a cell ends whatever it is told, and is exact in a cell that is in order; what it
/// says of the tree.
pub fn count_law()
    ensures ends { OthersEnd }
    ensures exact { CountsAreExact }
    ensures stays { CountStays }
    ensures counts { CountIsExact }
    ensures two { TwoAreMore }
    ensures one { OneIsMore }
{}

/// Finishing ends whatever it is told. Each of its turns is a step of the stages of an end, which keep what they know,
/// and show a layer in each mix; and where a change may begin its end.
pub fn finish_law()
    ensures stays { FinishStays }
    ensures turns { FinishTurns }
    ensures keeps { EndStepKeeps }
    ensures drains { EndingDrains }
    ensures mixes { EndingMixes }
    ensures begins { SwitchBegins }
{}

/// A look for room in a cell ends whatever it is told, and is exact in a cell that is in order; and the stores by which
/// a leaf comes there, where a change may begin its end.
pub fn room_law()
    ensures ends { RoomsEnd }
    ensures exact { RoomsAreExact }
    ensures stays { FindRoomStays }
    ensures finds { FindRoomIsExact }
    ensures adds { AddBegins }
    ensures quiet { QuietBegins }
{}

/// Taking a leaf or a cell ends whatever it is told, and takes exactly the first that has no mark. The tree doesn't
/// reach that one, and where there are at most as many keys as nodes, there is one.
pub fn take_law()
    ensures stays { TakeStays }
    ensures marks { TakeMarks }
    ensures exact { TakeIsExact }
    ensures unreached { TakenIsUnreached }
    ensures beside { UnreachedStays }
    ensures some { SomeIsTaken }
    ensures sets { TakeSets }
    ensures frees { FreeSets }
{}

/// Filling what the tree doesn't reach. Each turn of a machine that fills a leaf or a cell is a step of the stages of a
/// filling, which keep what they know, and each mix has the layer as it was.
pub fn fill_law()
    ensures begins { FillBegins }
    ensures leaves { LeafTurns }
    ensures cells { CellTurns }
    ensures keeps { FillStepKeeps }
    ensures drains { FillingDrains }
    ensures mixes { FillingMixes }
{}

/// From what a look, a count and fillings have found or made to where a change may begin its end.
pub fn begin_law()
    ensures leaf { LeafIsFilled }
    ensures pair { PairIsFilled }
    ensures larger { LargerIsFilled }
    ensures sets { SetBegins }
    ensures pairs { PairBegins }
    ensures grows { GrowBegins }
    ensures removes { RemoveBegins }
    ensures clears { ClearBegins }
    ensures unindexes { UnindexBegins }
    ensures collapses { CollapseBegins }
{}

/// Reading a cell ends whatever it is told, and answers its words as they stand. They are a cell in order where the
/// tree reaches it.
pub fn read_law()
    ensures stays { ReadStays }
    ensures reads { ReadIsExact }
    ensures sound { ReadIsCell }
{}

/// What the actions of a change do to a row does their steps' effects to the words of its layer, in both twins.
pub fn act_law()
    ensures acts { ActionHappens }
    ensures finishes { FinishHappens }
    ensures leaves { LeafHappens }
    ensures cells { CellHappens }
    ensures takes { TakeLeaves }
{}

/// On a row of words: each action of the end of a change keeps what is known there, and so does whatever becomes
/// durable by itself. At any time a crash leaves the layer before the change or the one after it, and while a leaf or a
/// cell is filled the one before.
pub fn row_law()
    ensures finishes { FinishActs }
    ensures finish_evicts { FinishEvicts }
    ensures finish_crashes { FinishCrashes }
    ensures leaves { LeafActs }
    ensures cells { CellActs }
    ensures fill_evicts { FillEvicts }
    ensures fill_crashes { FillCrashes }
{}

/// A take sets the mark of what it takes, and a finish takes away those of what is free. None of their other actions,
/// and none of a filling, changes a mark.
pub fn mark_law()
    ensures takes { TakeMakesMarks }
    ensures finishes { FinishMakesMarks }
    ensures leaves { LeafLeavesMarks }
    ensures cells { CellLeavesMarks }
{}
