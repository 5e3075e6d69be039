//! Laws on the definitions of this crate, each named by the contract of a function.

ghost use Rattle.cat_history.specs.Callers.{LateWritesAreFew};
ghost use Rattle.cat_history.specs.CrashEnds.{OldOrCutIsCrashEnd, NoneOrOneIsCrashEnd};
ghost use Rattle.cat_history.specs.CrashRounds.{SettledIsCrashRound};
ghost use Rattle.cat_history.specs.LoneRounds.{LoneRoundsAreLegal};
ghost use Rattle.cat_history.specs.Rounds.{AnsweredAreAll, AnsweredComeFirst};
ghost use Rattle.cat_history.specs.Scans.{PartsAreLater, PartsFollow, RangesRise, ScanIsWhole, ScansRise};

/// A round in which one caller alone has calls, each answered at once and spent exactly by the limit, is a legal one
/// that was joined.
pub fn lone_round_law()
    ensures { LoneRoundsAreLegal }
{}

/// Which records are answered: all of a round in which each call was, and the first ones where none of the others was.
pub fn answered_law()
    ensures all { AnsweredAreAll }
    ensures first { AnsweredComeFirst }
{}

/// What a scan lists. If the map is the same at all its places, then its parts together list the first names from the
/// one asked for on, as many as were asked for, with their numbers. Whatever the maps are, its names rise. A part more
/// makes parts of a scan from parts of it.
pub fn scan_law()
    ensures whole { ScanIsWhole }
    ensures ranges { RangesRise }
    ensures rise { ScansRise }
    ensures follow { PartsFollow }
    ensures later { PartsAreLater }
{}

/// What a crash may leave of a map. Let some changes be cut off, of different names or not. If another map has under
/// each name what the map had, or what one of these changes leaves there, then it is the map after those of them, in
/// their order, that are found in it.
pub fn crash_end_law()
    ensures law { OldOrCutIsCrashEnd }
    ensures cases { NoneOrOneIsCrashEnd }
{}

/// How far writes go past a limit. If no caller has two writes from the place `limit - 1` on, then each place of a
/// write is below `limit` plus the number of callers, minus one.
pub fn late_writes_law()
    ensures { LateWritesAreFew }
{}

/// What `settle` makes of a round that stopped at a crash. If the map that was found is one that the crash may leave,
/// then the settled records are those of a crash round that ends with it: each mark says whether its write is found.
pub fn settle_law()
    ensures { SettledIsCrashRound }
{}
