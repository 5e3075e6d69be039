//! The permutations of an index's nodes, beside the law of the index: where a permutation's version is the version word
//! of a node that is free, it has the node's live slots in rising order of their names.
#![tactic(auto)]

pub mod laws;
