//! A turn of the updater that is made with nothing else in flight: what it does, and what it answers; and what a call
//! leaves of log and search layer that is made so.
#![tactic(auto)]

pub mod laws;
