//! Calls that are made with no other in flight.
#![tactic(auto)]

pub mod laws;
