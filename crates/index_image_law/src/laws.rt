//! The laws. The function does nothing: it names what is proved.

ghost use Rattle.index_image_law.specs.Crash.{CrashLeavesSoundByAll};
ghost use Rattle.index_image_law.specs.Rest.{RestLeavesImage};

/// At any moment, whichever calls are in flight and however far a turn of the updater is, the durable words are an
/// image that is sound by all rules. With no call and no turn in flight the cached words are one, too, of this run of
/// the index, with its map, its anchors, what its listed nodes weigh, and its log lines.
pub fn image_law()
    ensures crash { CrashLeavesSoundByAll }
    ensures rest { RestLeavesImage }
{}
