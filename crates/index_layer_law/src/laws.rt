//! The laws. The functions do nothing: each names what is proved.

ghost use Rattle.index_layer_law.specs.Laws.{CallStepKeeps, TurnStepKeeps, TurnStepLeavesNodes, TurnStartKeeps};
ghost use Rattle.index_layer_law.specs.Laws.{TermsMayBegin, TurnStepLeavesVolatile};
ghost use Rattle.index_layer_law.specs.Laws.{EvictionKeepsLayer};
ghost use Rattle.index_layer_law.specs.Laws.{RestIsLayered, TargetsStand, LayerIsCovered, CrashLeadsAsListed};
ghost use Rattle.index_layer_law.specs.Beginnings.{BeginningKeepsLayer, OtherTurnsMayRest, StampKeepsLayer};
ghost use Rattle.index_layer_law.specs.Beginnings.{FreshIsLayered};

/// A step of a call keeps an index with its search layer and the turn beside it.
pub fn call_step_law()
    ensures { CallStepKeeps }
{}

/// So does a step of a turn, which leaves the words of the nodes, and so the list and the map; and of the volatile
/// words of nodes all but their statuses and their stamps.
pub fn turn_step_law()
    ensures keeps { TurnStepKeeps }
    ensures leaves { TurnStepLeavesNodes }
    ensures volatile { TurnStepLeavesVolatile }
{}

/// A party may begin another turn; and one whose turn has the lock and comes to a line may have another stamp and
/// another release from there on.
pub fn turn_start_law()
    ensures starts { TurnStartKeeps }
    ensures terms { TermsMayBegin }
{}

/// A word of the image that becomes durable keeps an index with its search layer and its turns.
pub fn eviction_law()
    ensures { EvictionKeepsLayer }
{}

/// An index with no call and no turn in flight, whose updater lock is free and whose row is lawful for a turn, has it
/// all.
pub fn rest_law()
    ensures { RestIsLayered }
{}

/// What the walk of a turn came to is the target of its line's anchor, until the version word of that node changes.
pub fn target_law()
    ensures { TargetsStand }
{}

/// At any moment the search layer leads exactly the anchors of the listed nodes, each to its node, but for keys that
/// log lines have which aren't EMPTY; and so does the durable one, by the durable lines, and by the durable list.
pub fn covered_law()
    ensures now { LayerIsCovered }
    ensures crash { CrashLeadsAsListed }
{}

/// Where parties begin anew while the others stay, and with them the base, the history and the clock, the index keeps
/// its search layer, as it does with other turns that rest, and with another stamp of a node that has one.
pub fn beginning_law()
    ensures calls { BeginningKeepsLayer }
    ensures turns { OtherTurnsMayRest }
    ensures stamp { StampKeepsLayer }
{}

/// A fresh index has its search layer.
pub fn fresh_law()
    ensures { FreshIsLayered }
{}
