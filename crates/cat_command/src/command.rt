//! Commands.

use pm_words::Layout;

/// What the words of the command line ask for. Where it names a file, that is the second word.
#[derive(Clone, Copy)]
pub enum Command {
    /// A fresh image of this layout, saved as a file.
    Format { layout: Layout },
    /// A script, run on a file.
    Run,
    /// A script, played on an empty catalogue of this layout.
    Play { layout: Layout },
    /// A generated round.
    Gen { seed: u64, count: u64, callers: u64 },
    /// Some words of a file.
    Words { from: u64, count: u64 },
}
