//! The search layer's tree in a row of words: the words of the layer as either twin of the row has them, its marks, and
//! what a load, a store, a drain and whatever becomes durable by itself make of both.
#![tactic(auto)]

pub mod laws;
