//! Offsets of the named words, counted from the start of their part.

/// The header line of an image. The words 6 and 7 are 0.
pub mod header {
    /// The text that begins each image, as a word.
    pub const MAGIC: u64 = 0;

    /// The number of the format.
    pub const FORMAT: u64 = 1;

    /// How many nodes there are.
    pub const NODES: u64 = 2;

    /// How many slots each node has.
    pub const SLOTS: u64 = 3;

    /// How many callers there are.
    pub const CALLERS: u64 = 4;

    /// How often the catalogue was opened, from 1 on.
    pub const GENERATION: u64 = 5;
}

/// The root line of an image. Its other words are 0.
pub mod root {
    /// The reference of the search layer's root.
    pub const REFERENCE: u64 = 0;
}

/// A node. The words 6 and 7 are 0.
pub mod node {
    /// The version word.
    pub const VERSION: u64 = 0;

    /// Bit `s` is set where slot `s` is live.
    pub const BITMAP: u64 = 1;

    /// The number of the next node; 0 is none.
    pub const NEXT: u64 = 2;

    /// The first of the anchor's words.
    pub const ANCHOR: u64 = 3;

    /// The first of the fingerprints' eight words.
    pub const PRINTS: u64 = 8;

    /// The first word of slot 0. A slot has the words of a name and its value.
    pub const SLOTS: u64 = 16;
}

/// A log line. The word 7 is 0.
pub mod line {
    /// Whether the line is empty, open or ready.
    pub const STATE: u64 = 0;

    /// Whether the change is a split or a merge.
    pub const KIND: u64 = 1;

    /// The new node of a split, or the merged node.
    pub const NODE: u64 = 2;

    /// The first of the words of that node's anchor.
    pub const ANCHOR: u64 = 3;

    /// The left node of the change.
    pub const LEFT: u64 = 6;
}

/// A leaf of the search layer. The words behind the node are 0.
pub mod leaf {
    /// The first of the key's words.
    pub const KEY: u64 = 0;

    /// The number of the node plus one, where the root leads to the leaf.
    pub const NODE: u64 = 3;
}

/// A cell of the search layer, of each form.
pub mod cell {
    /// How many bytes of a key lead to the cell.
    pub const DEPTH: u64 = 0;

    /// The first word of those bytes, which has as many words as a key.
    pub const PREFIX: u64 = 1;

    /// The first entry of form 4.
    pub const FIRST_OF_4: u64 = 4;

    /// The first entry of form 16, the first word of form 48's index, and the first reference of form 256.
    pub const FIRST: u64 = 8;

    /// The reference in form 48's first place.
    pub const PLACES: u64 = 40;
}

/// The volatile words of a node. The words 4 to 7 are 0.
pub mod volatile {
    /// Whether the node is free, live or gone.
    pub const STATUS: u64 = 0;

    /// The number of the node before, or of the node into which it was merged.
    pub const PREV: u64 = 1;

    /// When the node was merged; 0 is none.
    pub const STAMP: u64 = 2;

    /// The version of the node at which its permutation was made.
    pub const PERMUTATION_VERSION: u64 = 3;

    /// The first of the permutation's eight words.
    pub const PERMUTATION: u64 = 8;
}

/// The words that a row begins with, which all callers share. The words 2 to 7 are 0.
pub mod shared {
    /// The clock: how many writes were placed.
    pub const CLOCK: u64 = 0;

    /// The updater lock.
    pub const UPDATER: u64 = 1;
}
