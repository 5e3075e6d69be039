//! The laws of such rounds. The functions do nothing: each names what is proved.

ghost use Rattle.stopped_rounds.specs.MoreCuts.{MoreCutsAreCrashEnds};
ghost use Rattle.stopped_rounds.specs.LoneStops.{AnsweredAreDone, LoneStopsAreStoppedRounds};

/// A map that a crash may leave of some changes cut off is one that it may leave of more of them, in whatever order.
pub fn more_cuts_law()
    ensures { MoreCutsAreCrashEnds }
{}

/// A round in which one caller alone has calls, each answered at once and spent exactly by the limit up to one that was
/// cut off, or not begun, behind which none was begun, is a legal one that stopped; and its answered calls are those
/// before that one.
pub fn lone_stop_law()
    ensures legal { LoneStopsAreStoppedRounds }
    ensures answered { AnsweredAreDone }
{}
