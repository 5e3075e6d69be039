//! What a machine of a call has of the index.

use pm_words::Layout;

/// What a call has of the index: its layout, the generation of this run, and the number of the caller.
#[derive(Clone, Copy, PartialEq, Eq, Debug)]
pub struct View {
    pub layout: Layout,
    pub generation: u64,
    pub caller: u64,
}
