//! Laws of rounds of several callers, each named by the contract of a function.

ghost use Rattle.caller_rounds.specs.CallerRounds.{CallersMakeRound, CrashNamesRise, FullRoundsArePaid, NamesRise};
ghost use Rattle.caller_rounds.specs.CallerRounds.{RepliesFollow, RepliesMakeRound, RepliesStay, RoomFollows};

/// How one caller's calls go on by one more, whose reply was told since the caller had seen so many writes; and that
/// the replies stay so in whatever longer history, if that has no more writes of the caller.
pub fn caller_law()
    ensures follow { RepliesFollow }
    ensures stay { RepliesStay }
{}

/// Callers that have come so far with their calls of a script in one history, whose writes are theirs alone, have made
/// a legal round of them, with the history as its writes; and one that was joined, where each call was answered.
pub fn meeting_law()
    ensures legal { RepliesMakeRound }
    ensures joined { CallersMakeRound }
{}

/// In a legal round the names are at no place more than at its start and the puts that added one, or may have added one
/// as they were cut off; and no more are left by a crash behind it.
pub fn names_law()
    ensures within { NamesRise }
    ensures crash { CrashNamesRise }
{}

/// What callers know of room, one call after another, and that it pays for each full answer of a legal round.
pub fn room_law()
    ensures follow { RoomFollows }
    ensures paid { FullRoundsArePaid }
{}

ghost use Rattle.caller_rounds.specs.Apart.{ApartIsInOrder, LoneIsInOrder};

/// Where calls of different callers are about different names and none was refused, the map that a round leaves is the
/// one of its calls done in the script's order; and so it is where one caller alone has calls.
pub fn apart_law()
    ensures apart { ApartIsInOrder }
    ensures lone { LoneIsInOrder }
{}

ghost use Rattle.caller_rounds.specs.Standing.{AnswersAreTold, RecordsAreTold, RecordsStand, SettledAreTold};

/// The records of callers that have each made their calls in order stand by caller, as a report has them; and a report
/// may have each of them, once it is settled.
pub fn report_law()
    ensures stand { RecordsStand }
    ensures replies { AnswersAreTold }
    ensures settled { SettledAreTold }
    ensures records { RecordsAreTold }
{}

ghost use Rattle.caller_rounds.specs.Stopping.{StopsEndSo, StopsFollow, StopsMakeRound, UnstartedFollow, WithinFollows};

/// How the calls of a caller that stops once go on by one more: answered, cut off, or not begun; and within its budget.
pub fn stopping_law()
    ensures follow { StopsFollow }
    ensures unstarted { UnstartedFollow }
    ensures within { WithinFollows }
{}

/// Callers that each stopped once within their budgets in one history, whose writes are theirs alone, have made a legal
/// round of their calls that stopped, with the history as its writes; and what a crash leaves of what they had in
/// flight is what it may leave of the changes that the records tell as cut off.
pub fn stop_law()
    ensures round { StopsMakeRound }
    ensures end { StopsEndSo }
{}

ghost use Rattle.caller_rounds.specs.Settling.{SettledStay};

/// As the marks of a round's records are settled, as many puts may have added a name, and what was paid for and stood
/// by caller is and does so still.
pub fn settled_law()
    ensures { SettledStay }
{}
