//! Rounds of several callers: what each caller's own answers say of its calls, and that callers which meet in one
//! history have made a legal round.
#![tactic(auto)]

pub mod laws;
