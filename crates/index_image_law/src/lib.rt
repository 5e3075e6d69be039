//! What the image of an index is: of its durable words at any moment, which a crash leaves, and of its cached words
//! while nothing is in flight.
#![tactic(auto)]

pub mod laws;
