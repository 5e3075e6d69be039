//! The permutation of a node: its live slots in rising order of their names, a byte each, in eight volatile words; and
//! beside it the version word of the node at which it was made. While that is the node's version word, whoever reads
//! the node need not sort.
//!
//! Who holds a node stores its permutation, the words first and then, as its version, the word that the unlock of the
//! node will store. Nothing is durable of it, and no other word is changed.
#![tactic(auto)]

pub mod laws;
mod load;
mod store;
mod words;

pub use load::{LoadPermutation, LoadPermutationAt};
pub use store::StorePermutation;
pub use words::{PERMUTATION_WORDS, order_of, permutation_of, slot_at};
