//! The moves of a recovery.

/// One move of a recovery.
#[derive(Clone, Copy, PartialEq, Eq, Debug)]
pub enum Move {
    /// The next generation.
    Raise,
    /// The node gets the bitmap, in which no name is live that is out of its range.
    Trim { node: u64, bitmap: u64 },
    /// The line's anchor is taken out of the search layer.
    Unset { line: u64 },
    /// The line's anchor is set to the node.
    Set { line: u64, node: u64 },
    /// The line gets EMPTY.
    Empty { line: u64 },
}
