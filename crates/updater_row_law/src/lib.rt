//! A turn of the updater on a row of words: its stages, the kinds of its steps by the actions that they make, and that
//! each of them keeps what `updater_law` says of the facts that are read off the row.
#![tactic(auto)]

pub mod laws;

pub use search_layer;
