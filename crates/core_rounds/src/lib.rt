//! Plays rounds of one caller on the index, and says what rounds come to, those of several callers and those that a
//! crash ends among them.
//!
//! `CoreMap` is the index as a map of names, each call of which is a whole call of its caller with no other in flight.
//! A round of one caller is its calls, answered in their order, with turns of the updater among them; such rounds are
//! played one after another, each joined at its end. A round is summed up.
#![tactic(auto)]

mod core_map;
pub mod laws;
mod playing;
mod round;
mod summary;
mod updated_map;

pub use core_map::{CoreMap, RunOf, image_of};
pub use playing::{LoneRounds, calls_in, has_restart, is_crowd, play_lone, restarts};
pub use recovery;
pub use recovery::{index_core, node_ops};
pub use round::run_lone_round;
pub use summary::summarize;
pub use updated_map::UpdatedMap;
