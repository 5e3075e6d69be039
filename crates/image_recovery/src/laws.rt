//! The laws. The functions do nothing: each names what is proved.

ghost use Rattle.image_recovery.specs.MakingLaw.{MakingsBegin, MakingsGo, MakingsEvict, MakingsAreSure};
ghost use Rattle.image_recovery.specs.Recovered.{CrashLeavesSound, CrashBetweenLeavesSound};
ghost use Rattle.image_recovery.specs.Recoveries.{EndIsRecovered, RecoveringEvicts, StopLeavesSound};

/// The moves of a plan, made one after another, an action a turn, are the steps of a recovery: they may be made, and at
/// each moment, whichever words have become durable, the law is sure of what it says.
pub fn making_law()
    ensures begins { MakingsBegin }
    ensures goes { MakingsGo }
    ensures evicts { MakingsEvict }
    ensures sure { MakingsAreSure }
{}

/// A recovery goes on beside words that become durable on their own, between two of its actions; and once all its moves
/// are made, the image is recovered.
pub fn recovering_law()
    ensures evicts { RecoveringEvicts }
    ensures ends { EndIsRecovered }
{}

/// Wherever a recovery is broken, during a move or between two: what is durable is an image that is sound by all rules,
/// with the same list, map and weight, at most one generation later. So it may be recovered again.
pub fn crash_law()
    ensures during { CrashLeavesSound }
    ensures between { CrashBetweenLeavesSound }
    ensures stops { StopLeavesSound }
{}
