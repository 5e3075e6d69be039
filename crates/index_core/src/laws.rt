//! The laws of whole schedules, and those of single steps, on which whoever keeps the words rests.

ghost use Rattle.index_core.specs.Costs.{ActionsAreFew};
ghost use Rattle.index_core.specs.CrashLaws.{ChosenKeep, ChosenWeigh, CrashKeepsGeneration, CrashLeaves};
ghost use Rattle.index_core.specs.CrashLaws.{EvictionKeeps, PlacedAreTimely};
ghost use Rattle.index_core.specs.Freeing.{FreedWereReleased, StepsFreeReleased};
ghost use Rattle.index_core.specs.Fulls.{NoRoomIsFullPut, NoRoomListsEach};
ghost use Rattle.index_core.specs.Heard.{CallsBeginUntold, CallsHear};
ghost use Rattle.index_core.specs.LegalRounds.{LegalHistoryIsLegalRound, LegalHistoryKeepsLimit};
ghost use Rattle.index_core.specs.Logs.{LogIsCounted, QuietHasNoneOpen, RoomNeedsNoTurn};
ghost use Rattle.index_core.specs.MachineLaws.{MachineKeeps, BeginKeeps, FirstIsReady, IdleKeep, IdleWeigh};
ghost use Rattle.index_core.specs.MachineLaws.{PlacesFollow};
ghost use Rattle.index_core.specs.Opened.{OpeningIsIndex, OpeningIsUnused};
ghost use Rattle.index_core.specs.Rechecks.{PartsBecomeKnown, StepsKeepKnown, TurnsKeepKnown};
ghost use Rattle.index_core.specs.Rechecks.{RechecksAct, RechecksGoOn, RechecksAreAnswered, SameTells};
ghost use Rattle.index_core.specs.Rechecks.{SameIsSoon, SameOutlasts};
ghost use Rattle.index_core.specs.Rounds.{RoundBegins};
ghost use Rattle.index_core.specs.ScheduleCrashes.{CrashLeavesSound};
ghost use Rattle.index_core.specs.Schedules.{IdleAreCounted, OneLegalHistory};
ghost use Rattle.index_core.specs.SteppedTurns.{SteppedTurnIsWhole};
ghost use Rattle.index_core.specs.ToldRounds.{LegalHistoryIsToldRound};
ghost use Rattle.index_core.specs.Turns.{TermsMayBeSet, TurnBegins, TurnKeeps};
ghost use Rattle.index_core.specs.WeightBounds.{WeightIsBounded};
ghost use Rattle.index_core.specs.Withins.{CutLeavesOne, CutTurnLeavesNone};

/// All that a schedule answers is one legal history.
///
/// A schedule begins with an index in which no call is in flight and nothing is written yet, as of an image that was
/// just opened, or one whose next round begins. It starts calls, rechecks and turns of the updater, steps them in any
/// order, makes whole calls while no other call is in flight, and whole turns while nothing else is, evicts words and
/// makes room, as long as it likes. Fewer than 2^64 calls are begun, with those of a caller that counted before; of a
/// recheck and a turn, which place no write, each step tells what it answers.
///
/// - **Each once.** A call that was begun is answered once, or is in flight.
/// - **Its answer.** The old number of a call that took place is that of its name in the map at its place. The place
///   lies between the call's start and its answer. The history has the call's change there, and nothing else of it.
/// - **In order.** Of one caller's calls the one that was answered first took effect first.
/// - **Refused.** A call that was refused at its limit stands nowhere in the history. The clock that refused it is one
///   of its time, and had reached the limit.
/// - **Turned back.** While a call was made that was turned back, its caller wrote nothing. For want of room only a put
///   is turned back: in its time the map lacked its name, and had as many names as a node has slots.
/// - **Index.** The index of a call is what its caller's index was at first, and one more for each call of the caller
///   that was answered before it, but those that a step turned back. A whole call counts whatever it is answered.
/// - **Nothing else.** Each write of the history is that of an answered call at its place, or of a call in flight that
///   has this place.
/// - **Limit.** Where all puts and deletes have one limit, each place of a write is below it plus the number of callers
///   that have calls, minus one.
pub fn one_history_law()
    ensures history { OneLegalHistory }
    ensures idle { IdleAreCounted }
    ensures round { RoundBegins }
{}

/// Once no call is in flight, the calls of such a history that took place are a legal round over its base: each write
/// of the history is that of one of them, at its place. It is so under each limit that the places keep, and they keep
/// the one that all puts and deletes had, if they had one.
///
/// Under that limit there is one legal round too of each put and delete that took place, and of as many as one likes of
/// the reads, of the calls that found the limit reached, and of the puts that found no room. The parts of a scan, each
/// from where the one before it ended, are one record there.
pub fn history_round_law()
    ensures round { LegalHistoryIsLegalRound }
    ensures limit { LegalHistoryKeepsLimit }
    ensures told { LegalHistoryIsToldRound }
{}

/// How full an index may be. Its weight is half the slots for each listed node, one for each name above that, and half
/// the slots for each GONE node.
///
/// Along a schedule from an index with no call in flight, the weight is at most that of the first index, and one more
/// for each put that was begun since then and added a name, or isn't answered; so is it with what deletes and merges in
/// flight have lowered it by. The image that a crash leaves weighs no more either.
///
/// A whole put with no other call in flight, where a lock is left of each node, finds no room exactly where it is full
/// in the shape: the map lacks its name, the target has as many names as a node has slots, and as many nodes are listed
/// as may be. Each node is listed then.
pub fn weight_law()
    ensures bounded { WeightIsBounded }
    ensures full { NoRoomIsFullPut }
    ensures each { NoRoomListsEach }
{}

/// Wherever such a schedule stands, with calls in flight and a turn of the updater beside them, a crash leaves an image
/// that is sound by all rules.
///
/// The durable words of an index, whatever is in flight, are an image that is sound by all rules, in the generation of
/// its run. Its map is the one after the whole history and after those of the unplaced writes in flight that are found
/// in it, and it weighs no more than the index.
///
/// A crash behind a call that was cut off with no other in flight may find that call's own change, where it has no
/// place yet, and behind a turn of the updater none.
pub fn crash_law()
    ensures sound { CrashLeavesSound }
    ensures leaves { CrashLeaves }
    ensures generation { CrashKeepsGeneration }
    ensures call { CutLeavesOne }
    ensures turn { CutTurnLeavesNone }
{}

/// An idle party may begin a call, and a step of its call keeps the index.
///
/// The call's machine takes what its action gives. The action, done on its word, and the machine, told that number,
/// leave an index. Its history is longer by the party's write exactly where the action adds to the clock. An answer is
/// the map's at its place, or has its cause, the version word that turned the call back among them; none is that the
/// epoch has moved. No node becomes FREE.
///
/// A call's write has the place that its step was told which counted it. A call in flight whose write has its place
/// began while the history was shorter than its limit.
///
/// Why a call is turned back, by the numbers that its own steps gave. One that begins has been told nothing. Each step
/// adds its number to what is said of these, and an answer that turns the call back has its cause in them
/// (`HasCauseIn`): a version word that isn't free, or two that differ, twice as many hops as there are nodes, eight log
/// lines of which none was EMPTY, or each node not FREE or without a lock left.
pub fn machine_law()
    ensures keeps { MachineKeeps }
    ensures begins { BeginKeeps }
    ensures ready { FirstIsReady }
    ensures places { PlacesFollow }
    ensures timely { PlacedAreTimely }
    ensures untold { CallsBeginUntold }
    ensures hears { CallsHear }
{}

/// A step of a party's turn of the updater keeps the index, the words of its nodes, and so the list, the map and the
/// history; some GONE nodes become FREE, and so it weighs no more. A party may begin a turn, and once that has the
/// updater lock, and before it does more, it may have another stamp and another release.
///
/// The node of a merge becomes FREE again by its stamp.
///
/// A schedule begins with an index in which no call and no turn is in flight. A step of a call makes no node FREE
/// (`IsTurn`). One of a turn of the updater makes at most that node FREE whose stamp the turn has taken away in its
/// step before. The node is GONE in both, and its stamp was other than 0 and at most the turn's release.
///
/// A turn of the updater that is begun with nothing in flight, and stepped to its end with nothing else between, is
/// answered and leaves what a whole turn is answered and leaves. So ways are short then, as behind `Core::turn_alone`.
pub fn turn_law()
    ensures keeps { TurnKeeps }
    ensures begins { TurnBegins }
    ensures terms { TermsMayBeSet }
    ensures released { FreedWereReleased }
    ensures frees { StepsFreeReleased }
    ensures whole { SteppedTurnIsWhole }
{}

/// A part that is done is known: while its node's version word is the one that it tells, the map is the same on its
/// node's range. Each step of a call and each step of a turn keeps that.
///
/// A recheck, by whichever party, leaves the words as they are. It is answered that all is the same exactly where it
/// finds the version word that it was handed, at a place between its begin and its end. Then each known part that tells
/// this word of this node lists what the map has at each place from the part's on to that one.
pub fn recheck_law()
    ensures known { PartsBecomeKnown }
    ensures steps { StepsKeepKnown }
    ensures turns { TurnsKeepKnown }
    ensures acts { RechecksAct }
    ensures goes_on { RechecksGoOn }
    ensures answered { RechecksAreAnswered }
    ensures same { SameTells }
    ensures soon { SameIsSoon }
    ensures outlasts { SameOutlasts }
{}

/// With nothing in flight each log line is EMPTY or READY. A lone call that needs no turn of the updater leaves one
/// line more READY, and one of its caller's fewer EMPTY, where it splits or merges by the shape, and else as many as
/// there were. It needs none where its caller has an EMPTY line, a lock is left of each node, and some node is neither
/// listed nor GONE.
pub fn log_law()
    ensures none_open { QuietHasNoneOpen }
    ensures counted { LogIsCounted }
    ensures room { RoomNeedsNoTurn }
{}

/// An index with no call in flight is one with any idle parties.
pub fn idle_parties_law()
    ensures kept { IdleKeep }
    ensures weight { IdleWeigh }
{}

/// A word that becomes durable leaves an index. So do those that a seed chooses, and the sum of weights stays.
pub fn evict_law()
    ensures keeps { EvictionKeeps }
    ensures chosen { ChosenKeep }
    ensures weighs { ChosenWeigh }
{}

/// The words of a recovered image, whose volatile ones tell its list, are an index, in whose run no node was locked
/// yet.
pub fn opening_law()
    ensures index { OpeningIsIndex }
    ensures unused { OpeningIsUnused }
{}

/// How many actions a lone call makes at most, in plain numbers for any layout.
pub fn actions_law()
    ensures { ActionsAreFew }
{}
