use pm_words::{KEY, Layout};

/// What stays the same while a turn is made.
#[derive(Clone, Copy)]
pub struct Terms {
    pub layout: Layout,
    pub generation: u64,
    /// The stamp that merged nodes get.
    pub stamp: u64,
    /// Merged nodes whose stamp is at most this become FREE.
    pub release: u64,
}

/// What a turn has done so far.
#[derive(Clone, Copy)]
pub struct Tally {
    pub applied: u64,
    pub left: u64,
    pub freed: u64,
}

/// What a turn of the updater has done.
#[derive(Clone, Copy, PartialEq, Eq, Debug)]
pub struct Turned {
    /// How many READY lines it emptied.
    pub applied: u64,
    /// How many READY lines it left: the walk gave up, or the version word of its target changed meanwhile.
    pub left: u64,
    /// How many nodes it made FREE.
    pub freed: u64,
    /// Whether each node's status was loaded at the end, and none was FREE.
    pub none_free: bool,
}

/// The node in whose range a line's anchor lies, as the walk saw it.
#[derive(Clone, Copy)]
pub struct Found {
    pub node: u64,
    pub version: u64,
    /// The words of its anchor.
    pub low: [u64; KEY],
}
