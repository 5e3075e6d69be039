ghost use Rattle.std.specs.Prelude.{◌≡◌, ◌*◌, ◌<◌};
ghost use Rattle.pm_words.specs.Layouts.{IsLayout};
ghost use Rattle.smo_log.specs.LogLines.{numbered_address};

use pm_words::{KEY, LOG_LINES, Layout};

/// What a line says of a change.
#[derive(Clone, Copy, PartialEq, Eq, Debug)]
pub struct Entry {
    /// A split or a merge.
    pub kind: u64,
    /// The new node, or the one that is merged into another.
    pub node: u64,
    /// The words of that node's anchor.
    pub anchor: [u64; KEY],
    /// The node before it.
    pub left: u64,
}

/// The address of a line's word.
pub(crate) fn line_address(layout: &Layout, line: u64, offset: u64) -> u64
    requires layout { IsLayout layout.now }
    requires line { line < 8 * layout.now.callers }
    requires offset { offset < 8 }
    ensures { result ≡ numbered_address layout.now line offset }
{
    layout.cached(layout.line_word(line / LOG_LINES, line % LOG_LINES, offset))
}
