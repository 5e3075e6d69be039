//! Rounds of one caller that a crash ends: calls that were answered, at most one that was cut off, and calls that were
//! not begun; and how such a round is run on a map whose calls have a budget of events.
#![tactic(auto)]

mod bounded_map;
mod crash_round;
pub mod laws;

pub use bounded_map::{Bounded, BoundedMap};
pub use crash_round::{StoppedRound, is_placed_write, run_crash_round};
