//! The laws. The functions do nothing: each names what is proved.

ghost use Rattle.updater_law.specs.Laws.{TurnKeeps, OtherKeeps, LayerEvicts, CrashIsCovered, IsCoveredNow};
ghost use Rattle.updater_law.specs.Laws.{KeysLeadApart, FreedAreReleased, OthersFreeNone, StampWasReleased};
ghost use Rattle.updater_law.specs.Laws.{FreshIsLawful};
ghost use Rattle.updater_law.specs.Lone.{LoneTurn};
ghost use Rattle.updater_law.specs.Traces.{TracesKeep, FreedWereStamped};

/// A step of the turn, a step of another party, and words of the layer that become durable keep what is lawful. So do
/// traces of them.
pub fn steps_keep()
    ensures turn { TurnKeeps }
    ensures others { OtherKeeps }
    ensures evictions { LayerEvicts }
    ensures traces { TracesKeep }
{}

/// The layer is covered: at every moment the cached one by the cached lines, and whenever a crash comes the durable one
/// by the durable lines, if the durable list differs from the cached one at most where a durable line is open. No two
/// keys lead to one node.
pub fn covered_law()
    ensures now { IsCoveredNow }
    ensures crash { CrashIsCovered }
    ensures apart { KeysLeadApart }
{}

/// A node becomes free only in a turn that took from it a stamp which the turn's release allows; no other party makes a
/// node free.
pub fn freed_law()
    ensures turn { FreedAreReleased }
    ensures stamp { StampWasReleased }
    ensures others { OthersFreeNone }
    ensures traces { FreedWereStamped }
{}

/// A fresh index is lawful: so the laws are not empty.
pub fn fresh_law()
    ensures { FreshIsLawful }
{}

/// A turn alone that leaves no line ends with every line empty, the list as it was, and each merged node free that
/// isn't worn and whose stamp the release allows. That it leaves none is a premise: it is the walk's to show.
pub fn lone_law()
    ensures { LoneTurn }
{}
