//! The log lines of an image, by its columns.

ghost use Rattle.std.specs.Prelude.{◌≡◌, ◌≢◌, ◌<◌, ◌↔◌, IsTrue};
ghost use Rattle.pm_words.specs.Codes.{empty_state};
ghost use Rattle.data_node.specs.Lists.{anchor_words};
ghost use Rattle.image_recovery_law.specs.updater_row_law.specs.Columns.{line_count};
ghost use Rattle.image_recovery.specs.Plans.{columns};

use cat_key::WORDS;
use image_rules::read::line_word;
use pm_words::Image;
use pm_words::codes::state::EMPTY;
use pm_words::offsets::line;

/// A word of a line.
fn column(image: &Image, line: u64, offset: u64) -> u64
    requires line { line < line_count image.now.layout }
    requires offset { offset < 8 }
    ensures { result ≡ (columns image.now).line line offset }
{
    line_word(image, line, offset)
}

/// Whether a line isn't EMPTY.
pub(crate) fn is_used(image: &Image, line: u64) -> bool
    requires { line < line_count image.now.layout }
    ensures { IsTrue result ↔ ((columns image.now).line line 0 ≢ empty_state) }
{
    column(image, line, line::STATE) != EMPTY
}

/// The words of a line's anchor.
pub(crate) fn line_anchor(image: &Image, line: u64) -> [u64; WORDS]
    requires { line < line_count image.now.layout }
    ensures { result ≡ anchor_words ((columns image.now).line line) }
{
    [
        column(image, line, line::ANCHOR),
        column(image, line, line::ANCHOR + 1),
        column(image, line, line::ANCHOR + 2),
    ]
}
