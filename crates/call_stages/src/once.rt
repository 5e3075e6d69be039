//! The answers of one try of a call.

use pm_words::Again;

/// A call that took effect: the number that its name had, its place, and how many hops its walk made.
#[derive(Clone, Copy, PartialEq, Eq, Debug)]
pub struct Placed {
    pub old: Option<u64>,
    /// How many placed writes come before the call.
    pub place: u64,
    pub hops: u64,
}

/// The answer of one try of a call.
#[derive(Clone, Copy, PartialEq, Eq, Debug)]
pub enum Once<T> {
    Done(T),
    /// The clock, loaded under the node's lock, had reached the call's limit.
    Spent { clock: u64 },
    /// The node's version word was loaded, and no more locks can be taken from it.
    Worn { node: u64, word: u64 },
    /// The call changed no name and is to be made again.
    Again(Again),
}
