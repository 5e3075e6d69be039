//! Plays rounds of one caller on the index that a crash ends.
//!
//! `CrashMap` is the index as a map of names whose calls have a budget of events: each is a whole call of its caller
//! with no other in flight, or is cut off and stays in flight. A turn of the updater that was cut off may be in flight
//! beside it. `crash_round` runs a round on it, lets power fail and opens the image that is left, whose map tells what
//! became of the write that was cut off.
#![tactic(auto)]

mod crash_map;
mod power;
mod round;

pub use core_rounds;
pub use core_rounds::recovery;
pub use round::{CrashedRound, crash_round};
