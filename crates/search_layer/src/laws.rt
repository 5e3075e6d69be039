//! The laws, for the proofs of crates above. The functions do nothing: each names what is proved.

ghost use Rattle.search_layer.specs.Rows.{LayerWordsStay, RowsAlike, ImagesAlike, EvenAreSame, MixesAreEven};
ghost use Rattle.search_layer.specs.Rows.{LayerAlike, EvictionMixes};
ghost use Rattle.search_layer.specs.Kept.{KeptLeadsBelow};
ghost use Rattle.search_layer.specs.Floors.{FloorIsExact, FloorAnswersANode, FloorStays, FloorGoesOn};
ghost use Rattle.search_layer.specs.Floors.{FloorOnlyLoads, FloorTold};
ghost use Rattle.search_layer.specs.Laws.{ChangesAreSteps, ChangesStaySound, SetsStaySound, UnsetsStaySound};
ghost use Rattle.search_layer.specs.Laws.{SetsBeginSound, UnsetsBeginSound, ChangesStayOnLayer};
ghost use Rattle.search_layer.specs.Laws.{ChangeStepKeeps, ChangeCanAct, ChangeIsBacked, ChangeEvicts};
ghost use Rattle.search_layer.specs.Laws.{ChangeBegins, ChangeEnds, LayerIsEither, MixIsEither, StepIsEither};
ghost use Rattle.search_layer.specs.Laws.{UnsetKeepsZero, LayerStaysRooted, MixStaysRooted, RootedBegins};
ghost use Rattle.search_layer.specs.Beside.{BesideLeavesLayer, DrainIsEviction, SureStays, OthersKeep};
ghost use Rattle.search_layer.specs.Beside.{EvictionsKeep, RestStays, RestOutlasts, RestEvicts};
ghost use Rattle.search_layer.specs.RootLine.{RootBegins, RootStepKeeps, RootOutlasts, RootOthersKeep};
ghost use Rattle.search_layer.specs.RootLine.{RootEvictionsKeep};
ghost use Rattle.search_layer.specs.Fresh.{FreshIsAtRest};

/// A store of a word that isn't of the layer leaves the layer's words and the marks, and rows and images that have the
/// former alike have one layer. Whichever word becomes durable by itself makes a mix of the cached and the durable
/// ones; where all were durable, they stay so.
pub fn row_law()
    ensures stays { LayerWordsStay }
    ensures layers { LayerAlike }
    ensures alike { RowsAlike }
    ensures images { ImagesAlike }
    ensures same { EvenAreSame }
    ensures even { MixesAreEven }
    ensures mixes { EvictionMixes }
    ensures kept { KeptLeadsBelow }
{}

/// A floor asks for loads of words of the layer alone, and answers a node within so many numbers as it reads at most,
/// whatever they are; where they are words in order, it answers the node of the greatest key that is at most its own.
pub fn floor_law()
    ensures exact { FloorIsExact }
    ensures answers { FloorAnswersANode }
    ensures stays { FloorStays }
    ensures goes_on { FloorGoesOn }
    ensures loads { FloorOnlyLoads }
    ensures told { FloorTold }
{}

/// Each turn of a change, whatever number it is told, is a step, on a word of the layer, and leaves it sound; so with
/// sets and unsets.
pub fn turn_law()
    ensures steps { ChangesAreSteps }
    ensures sound { ChangesStaySound }
    ensures set { SetsStaySound }
    ensures unset { UnsetsStaySound }
    ensures set_begins { SetsBeginSound }
    ensures unset_begins { UnsetsBeginSound }
    ensures on_layer { ChangesStayOnLayer }
{}

/// A step of a change may be done, keeps the row in order and what its stage knows; the switch store changes the layer
/// at the key, and no other step changes it. Between steps the cached row, the durable row and each mix of the two are
/// in order, with the layer before up to the switch store, and the changed one once that is durable.
pub fn change_law()
    ensures acts { ChangeCanAct }
    ensures keeps { ChangeStepKeeps }
    ensures backed { ChangeIsBacked }
    ensures evicts { ChangeEvicts }
{}

/// A change may begin where all is durable, and all is durable again once it is done. At each moment the cached layer
/// is the one before or the one that it makes, and each mix is the cached one or the one before.
pub fn stage_law()
    ensures begins { ChangeBegins }
    ensures ends { ChangeEnds }
    ensures layer { LayerIsEither }
    ensures mix { MixIsEither }
    ensures step { StepIsEither }
{}

/// Where the zero key leads somewhere it does so at every moment of a set, and of an unset of another key, which may
/// begin there; an unset leaves it where it led.
pub fn zero_law()
    ensures zero { UnsetKeepsZero }
    ensures layer { LayerStaysRooted }
    ensures mix { MixStaysRooted }
    ensures begins { RootedBegins }
{}

/// Parties that leave the layer's words and the marks to it keep what a change knows of the row, and so does whatever
/// becomes durable by itself, or is drained as it is cached. A layer at rest stays at rest.
pub fn beside_law()
    ensures leaves { BesideLeavesLayer }
    ensures drains { DrainIsEviction }
    ensures stays { SureStays }
    ensures others { OthersKeep }
    ensures evicts { EvictionsKeep }
    ensures rests { RestStays }
    ensures outlasts { RestOutlasts }
    ensures rest_evicts { RestEvicts }
{}

/// The words of the root's line behind the first are drained with it, as they are cached: a change leaves the cached
/// ones and, but for that, the durable ones. So where they are 0 they stay so.
pub fn root_law()
    ensures begins { RootBegins }
    ensures keeps { RootStepKeeps }
    ensures outlasts { RootOutlasts }
    ensures others { RootOthersKeep }
    ensures evicts { RootEvictionsKeep }
{}

/// The layer of a fresh image is in order, with the zero key alone: so the laws are not empty.
pub fn fresh_law()
    ensures { FreshIsAtRest }
{}
