//! What words say by number.

/// The status of a node, a volatile word.
pub mod status {
    /// It is in nobody's use.
    pub const FREE: u64 = 0;

    /// It is listed, or a split is about to list it.
    pub const LIVE: u64 = 1;

    /// It was merged into the node before it, and becomes free in a later turn of the updater.
    pub const GONE: u64 = 2;
}

/// The state of a log line.
pub mod state {
    /// It says nothing.
    pub const EMPTY: u64 = 0;

    /// Its change may still be taken back.
    pub const OPEN: u64 = 1;

    /// Its change is made, and waits for a turn of the updater.
    pub const READY: u64 = 2;
}

/// The kind of the change that a log line tells.
pub mod kind {
    /// Some names of a node went to a new one behind it.
    pub const SPLIT: u64 = 1;

    /// All names of a node went to the one before it.
    pub const MERGE: u64 = 2;
}

/// A reference of the search layer, which is `KIND` times the kind of what it refers to, and the number of that. The
/// other kinds are those of cells, by how many children their form has room for.
pub mod reference {
    /// What a kind counts for, above each number of a leaf or a cell.
    pub const KIND: u64 = 1 << 16;

    /// The kind of leaves.
    pub const LEAF: u64 = 1;

    /// Four children, as entries.
    pub const FORM_4: u64 = 2;

    /// Sixteen, as entries.
    pub const FORM_16: u64 = 3;

    /// Forty-eight, through an index.
    pub const FORM_48: u64 = 4;

    /// One for each branch byte.
    pub const FORM_256: u64 = 5;
}

/// The updater lock.
pub mod updater_lock {
    /// No turn of the updater is being made.
    pub const UNTAKEN: u64 = 0;

    /// One is being made.
    pub const TAKEN: u64 = 1;
}

/// A node's permutation, which is volatile.
pub mod permutation {
    /// The version of one that was never made: no node has this version word.
    pub const NONE: u64 = u64::MAX;
}
