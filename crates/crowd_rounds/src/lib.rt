//! Rounds of one caller and of several, one after another, some of which a crash ends.
//!
//! A round in which one caller at most has calls is played by that caller alone. In any other round each caller makes
//! its calls in a thread of its own, and behind it the index is opened again, so that no later round finds a worn node.
//! Behind a crash the image that it left is opened.
#![tactic(auto)]

mod crowd;
mod playing;

pub use core_crashes::{core_rounds, recovery};
pub use playing::{PlayedRounds, play_plans, play_rounds};
pub use thread_rounds::{index_core, pac_index};
