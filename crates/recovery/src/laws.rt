//! The laws. The functions do nothing: each names what is proved.

ghost use Rattle.recovery.specs.Crashed.{CrashIsUndamaged};
ghost use Rattle.recovery.specs.Stops.{BrokenAreAsGood};

/// An image that a crash left, at whatever moment, is never refused as damaged: it is opened, unless it is one of the
/// last generation, or memory runs out.
pub fn crash_law()
    ensures { CrashIsUndamaged }
{}

/// Recoveries that are broken off one after another, each at whatever moment and beside whatever words become durable,
/// leave an image as good as the first one, as long as there is a generation for each.
pub fn broken_law()
    ensures { BrokenAreAsGood }
{}
