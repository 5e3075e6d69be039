//! Laws of rounds and of cores, each named by the contract of a function. The functions do nothing.

ghost use Rattle.core_rounds.specs.CoreMaps.{OpenedIsMap};
ghost use Rattle.core_rounds.specs.CrashWork.{MoreWeightWorks, OneMoreWorks, PlainRoundsWork, WorkGoesOn};
ghost use Rattle.core_rounds.specs.LoneCalls.{IsCrowdOrLone, JoinedLoneHaveNoRestart, RestartsAddUp, RestartsAreFew};
ghost use Rattle.core_rounds.specs.Rounds.{EachIsReported, MorePays, OnlyRoundIsLegal, PlayedArePaid, RoundsGoOn};

/// What rounds come to that are played one after another: some behind others, what their full answers are paid for by,
/// and how many there are.
pub fn rounds_law()
    ensures go_on { RoundsGoOn }
    ensures more { MorePays }
    ensures paid { PlayedArePaid }
    ensures reported { EachIsReported }
    ensures only { OnlyRoundIsLegal }
{}

/// Which rounds are of several callers, and how many times the index is opened again among rounds.
pub fn restarts_law()
    ensures either { IsCrowdOrLone }
    ensures none { JoinedLoneHaveNoRestart }
    ensures few { RestartsAreFew }
    ensures add { RestartsAddUp }
{}

/// In which of the rounds that are played one after another calls are surely answered: with more weight at the opening,
/// behind others, and among rounds behind which the index isn't opened again.
pub fn crash_work_law()
    ensures more { MoreWeightWorks }
    ensures go_on { WorkGoesOn }
    ensures plain { PlainRoundsWork }
    ensures one_more { OneMoreWorks }
{}

/// What is known of an index that an image was opened as.
pub fn opened_law()
    ensures { OpenedIsMap }
{}
