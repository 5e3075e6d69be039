//! What a round reports of each call.

use crate::items::Items;
use crate::op::Op;
use cat_key::{Name, Pair};

/// Names with their numbers.
pub type Pairs = Items<Pair>;

/// What is said of a call that a crash cut off.
#[derive(Clone, Copy, Debug, PartialEq, Eq)]
pub enum CutMark {
    /// A write that has this place; it tells no old number.
    At { place: u64 },
    /// A write without a place, as long as the map found after the crash was not yet asked for it.
    Open,
    /// A write without a place that the map found after the crash shows.
    Found,
    /// A write without a place that left no trace.
    Lost,
    /// A get.
    Read,
}

/// A part of a scan: the names of a range of names, as the map had them at the part's place.
#[derive(Drop)]
pub struct ScanPart {
    /// The lowest name that the part may list.
    pub low: Name,
    /// The names that it lists are below this one; None where nothing lies above the part.
    pub high: Option<Name>,
    /// How many placed writes of the round come before it.
    pub place: u64,
    /// What it lists, in rising order of names.
    pub pairs: Pairs,
}

/// The parts of a scan, in the order in which they were read.
pub type Parts = Items<ScanPart>;

/// What a call was answered.
#[derive(Drop)]
pub enum Reply {
    /// The number that the name had before a write, or that a get read, and the call's place: how many placed
    /// writes of the round come before it.
    Old { old: Option<u64>, place: u64 },
    /// The parts of a scan, and whether a crash cut it off after them.
    Parts { parts: Parts, cut: bool },
    /// A put of a new name for which there was no room. It changed nothing and has no place.
    Full,
    /// A put or a delete that saw so many placed writes, and that this is no less than the limit. It changed nothing
    /// and has no place.
    Spent { clock: u64 },
    /// A put, a get or a delete that a crash cut off.
    Cut { mark: CutMark },
    /// A call that a crash let not begin.
    Unstarted,
}

/// A call of a round with its reply.
#[derive(Drop)]
pub struct Record {
    pub caller: u64,
    /// How many earlier calls of the round the same caller made.
    pub index: u64,
    pub op: Op,
    pub reply: Reply,
}

/// The records of a round.
pub type Records = Items<Record>;
