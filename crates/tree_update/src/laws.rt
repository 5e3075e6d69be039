//! Laws on changes, for the proofs of crates above. The functions do nothing: each names what is proved.

ghost use Rattle.tree_update.specs.ChangeStays.{ChangesStay, SetsStay, UnsetsStay};
ghost use Rattle.tree_update.specs.Stages.{ChangeActs};
ghost use Rattle.tree_update.specs.Runs.{ChangeCanAct, ChangeEvicts, ChangeMixes, EachMomentKeeps};
ghost use Rattle.tree_update.specs.Runs.{RunsEndRight, RunsEndChanged, UnsetKeepsZero};
ghost use Rattle.tree_update.specs.Kinds.{ChangeActsOn, ChangeKeepsOthers};

/// A change, a set and an unset stay sound and come to their ends, whatever they are told.
pub fn turn_law()
    ensures changes { ChangesStay }
    ensures sets { SetsStay }
    ensures unsets { UnsetsStay }
{}

/// A sound change may do its action, which is a load, a store of a word of the layer, a drain of one of its line, or a
/// store of a mark; so all else stays. On a row each action keeps what its state knows of the layer's words and of the
/// marks, and so does whatever becomes durable by itself; of whichever words become durable the layer is that before
/// the change or the one that it makes.
pub fn change_law()
    ensures acts { ChangeCanAct }
    ensures on { ChangeActsOn }
    ensures others { ChangeKeepsOthers }
    ensures keeps { ChangeActs }
    ensures evicts { ChangeEvicts }
    ensures mixes { ChangeMixes }
{}

/// A set or an unset that begins on a row at rest, beside parties that leave the layer and its marks to it, and
/// under any evictions: at each moment, whichever words become durable, the tree is in order and its layer is
/// that before the change or the one that it makes, and so is that of the image that a crash leaves. Once it is
/// done, the layer is the latter and the row is at rest; with more keys than nodes a set may end without a
/// change. An unset leaves the zero key where it was.
pub fn run_law()
    ensures moments { EachMomentKeeps }
    ensures right { RunsEndRight }
    ensures changed { RunsEndChanged }
    ensures zero { UnsetKeepsZero }
{}
