//! The map that a sound image keeps, as pairs in rising order of names.
//!
//! The list of nodes is walked once. Each node has its names in no order, and maybe some that don't belong there; those
//! that do are put in order, node by node. Since ranges rise along the list, the nodes' names follow each other.
#![tactic(auto)]

mod names;
mod pairs;

pub use pairs::image_pairs;
