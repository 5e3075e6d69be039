//! Laws on the rules by which a round is judged, each named by the contract of a function.

ghost use Rattle.transcript.specs.Legality.{LegalBreaksNone, OneEnd, OneFirstBroken, RulesAreLegality};

/// The eight rules together are what the history calls a legal round, joined or ended by a crash, with the numbers that
/// are told of its end. A legal round has one map at its end and breaks no rule; of any other round one rule is the
/// first that it breaks.
pub fn rules_law()
    ensures legality { RulesAreLegality }
    ensures end { OneEnd }
    ensures first { OneFirstBroken }
    ensures none { LegalBreaksNone }
{}
