//! What callers ask of a catalogue, and what a call writes into it.

use crate::items::Items;
use cat_key::Name;

/// What a call on one name asks.
#[derive(Clone, Copy)]
pub enum NameOp {
    Put { name: Name, value: u64 },
    Get { name: Name },
    Del { name: Name },
}

/// What a call asks.
#[derive(Clone, Copy)]
pub enum Op {
    Put { name: Name, value: u64 },
    Get { name: Name },
    Del { name: Name },
    /// The first names that are at least `from`, this many, with their numbers.
    Scan { from: Name, count: u64 },
}

/// A caller's number, and what it asks.
#[derive(Clone, Copy)]
pub struct CallerOp {
    pub caller: u64,
    pub op: Op,
}

/// What a write does to the map.
#[derive(Clone, Copy)]
pub enum Change {
    Put { name: Name, value: u64 },
    Del { name: Name },
}

/// A change, with the caller that made it and the index of the call among that caller's calls of the round.
#[derive(Clone, Copy)]
pub struct Write {
    pub caller: u64,
    pub index: u64,
    pub change: Change,
}

/// The writes of a history, by place.
pub type Writes = Items<Write>;
