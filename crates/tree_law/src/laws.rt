//! Laws on trees of leaves and cells, for the proofs of crates above. The functions do nothing: each names what is
//! proved.

ghost use Rattle.tree_law.specs.Trees.{LeavesLead, LayerIsFinite, LayerLeadsToNodes, LeavesAreApart};
ghost use Rattle.tree_law.specs.Floors.{FloorIsExact};
ghost use Rattle.tree_law.specs.FloorWalks.{WalksEnd, WalkIsExact};
ghost use Rattle.tree_law.specs.Switches.{AddMakes, PairMakes, GrowMakes, RemoveMakes, CollapseMakes, RenameMakes};
ghost use Rattle.tree_law.specs.Switches.{OthersMayDiffer};
ghost use Rattle.tree_law.specs.Reached.{AddReaches, PairReaches, GrowReaches, RemoveReaches, CollapseReaches};
ghost use Rattle.tree_law.specs.Rooms.{LeavesAreFew, CellsAreFew, ReachedOnce, RootIsNoChild};
ghost use Rattle.tree_law.specs.Words.{SwitchMakes, NodeWordMakes, PartMayDiffer};
ghost use Rattle.tree_law.specs.Paths.{WayAdds, WayPairs, WayLeads};
ghost use Rattle.tree_law.specs.Changes.{SetAdds, SetPairs, SetGrows, UnsetRemoves, UnsetCollapses};
ghost use Rattle.tree_law.specs.Stages.{FillsKeep, SwitchesKeep, QuietKeeps, SomeIsFree};
ghost use Rattle.tree_law.specs.Marking.{FillReaches, NodeWordReaches, SetAddReaches, SetPairReaches};
ghost use Rattle.tree_law.specs.Marking.{SetGrowReaches, UnsetRemoveReaches, UnsetCollapseReaches, MarksTellAgain};
ghost use Rattle.tree_law.specs.Marking.{OneComes, TwoCome, OneIsReplaced, OneGoes, TwoGo};
ghost use Rattle.tree_law.specs.Leaves.{FewIsCount, CellsByChildren};
ghost use Rattle.tree_law.specs.Fresh.{FreshIsLawful};

/// A tree in order is a finite map, that of its leaves.
pub fn tree_law()
    ensures leads { LeavesLead }
    ensures finite { LayerIsFinite }
    ensures nodes { LayerLeadsToNodes }
    ensures apart { LeavesAreApart }
{}

/// The floor of a key in a tree in order is exact.
pub fn floor_law()
    ensures exact { FloorIsExact }
{}

/// A floor as a walk that is told of one leaf or cell at a time: whatever it is told, it ends at a node in range; and
/// where nobody writes it is exact.
pub fn walk_law()
    ensures ends { WalksEnd }
    ensures exact { WalkIsExact }
{}

/// One store changes a tree in order to a tree in order, whose layer is that before with one key changed. What isn't
/// reached may be anything.
pub fn switch_law()
    ensures add { AddMakes }
    ensures pair { PairMakes }
    ensures grow { GrowMakes }
    ensures remove { RemoveMakes }
    ensures collapse { CollapseMakes }
    ensures rename { RenameMakes }
    ensures others { OthersMayDiffer }
{}

/// Which leaves and cells are reached behind that store: those before it, and what was filled for it, but not what it
/// takes out.
pub fn reached_law()
    ensures adds { AddReaches }
    ensures pairs { PairReaches }
    ensures grows { GrowReaches }
    ensures removes { RemoveReaches }
    ensures collapses { CollapseReaches }
{}

/// A tree in order has at most as many leaves, and at most as many cells, as keys; none is reached by two ways.
pub fn room_law()
    ensures leaves { LeavesAreFew }
    ensures cells { CellsAreFew }
    ensures once { ReachedOnce }
    ensures root { RootIsNoChild }
{}

/// What a store makes of the words of a tree.
pub fn word_law()
    ensures switch { SwitchMakes }
    ensures node { NodeWordMakes }
    ensures part { PartMayDiffer }
{}

/// What a way that has come to its end says of the change to be made there.
pub fn path_law()
    ensures adds { WayAdds }
    ensures pairs { WayPairs }
    ensures leads { WayLeads }
{}

/// A set and an unset, from the end of the key's way to the store that makes them.
pub fn change_law()
    ensures adds { SetAdds }
    ensures pairs { SetPairs }
    ensures grows { SetGrows }
    ensures removes { UnsetRemoves }
    ensures collapses { UnsetCollapses }
{}

/// Whichever words become durable while a change is made, they keep the layer before it or the one that it makes. There
/// is always a leaf, and a cell of each form, that isn't reached.
pub fn stage_law()
    ensures fills { FillsKeep }
    ensures switches { SwitchesKeep }
    ensures quiet { QuietKeeps }
    ensures free { SomeIsFree }
{}

/// What a change of the words makes of what their tree reaches; and that marks which follow it tell what is reached.
pub fn marking_law()
    ensures fills { FillReaches }
    ensures node { NodeWordReaches }
    ensures adds { SetAddReaches }
    ensures pairs { SetPairReaches }
    ensures grows { SetGrowReaches }
    ensures removes { UnsetRemoveReaches }
    ensures collapses { UnsetCollapseReaches }
    ensures marks { MarksTellAgain }
    ensures one_comes { OneComes }
    ensures two_come { TwoCome }
    ensures replaced { OneIsReplaced }
    ensures one_goes { OneGoes }
    ensures two_go { TwoGo }
{}

/// What a check of a tree by recursion rests on: few keys are few leaves, and a cell is in order by its children.
pub fn leaf_law()
    ensures few { FewIsCount }
    ensures cells { CellsByChildren }
{}

/// The words of an empty catalogue are in order: so the laws are not empty.
pub fn fresh_law()
    ensures { FreshIsLawful }
{}
