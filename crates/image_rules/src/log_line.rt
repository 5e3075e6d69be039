//! The rule on lines of the log.

ghost use Rattle.std.specs.Prelude.{◌≡◌, ◌+◌, ◌*◌, ◌/◌, ◌%◌, ◌<◌, ◌↔◌, [], ◌∷◌, IsTrue};
ghost use Rattle.pm_words.specs.Locations.{Line, word_number};
ghost use Rattle.pm_words.specs.Offsets.{anchor_offset};
ghost use Rattle.cat_key.specs.Names.{AreNameWords};
ghost use Rattle.data_node.specs.Lines.{IsEntry, IsFitLine};
ghost use Rattle.image_rules.specs.Lowest.{IsLowest, IsNumberOf};
ghost use Rattle.image_rules.specs.Rules.{line_spot, IsUnfit, BreaksLines};

use crate::read::{line_anchor, line_count, line_word};
use cat_key::Name;
use pm_words::codes::kind::{MERGE, SPLIT};
use pm_words::codes::state::{EMPTY, READY};
use pm_words::offsets::line;
use pm_words::{Image, LOG_LINES};

/// The offset of a line's last word, which is 0.
const LAST: u64 = 7;

/// The number of a line's word in the image.
fn number_of(image: &Image, line: u64, offset: u64) -> u64
    requires line { line < 8 * image.now.layout.callers }
    requires offset { offset < 8 }
    ensures { result ≡ word_number image.now.layout (Line (line / 8) (line % 8) offset) }
{
    image
        .layout()
        .line_word(line / LOG_LINES, line % LOG_LINES, offset)
}

/// Whether a name stands in a line as an anchor.
fn has_anchor(image: &Image, line: u64) -> bool
    requires { line < 8 * image.now.layout.callers }
    ensures { IsTrue result ↔ AreNameWords (line_spot image.now.layout image.now.words line anchor_offset
        ∷ line_spot image.now.layout image.now.words line (anchor_offset + 1)
        ∷ line_spot image.now.layout image.now.words line (anchor_offset + 2) ∷ []) }
{
    Name::of_words(line_anchor(image, line)).is_some()
}

/// Whether a line is OPEN or READY, if it isn't EMPTY, and holds a split or a merge of the image's nodes.
fn is_entry(image: &Image, line: u64) -> bool
    requires { line < 8 * image.now.layout.callers }
    ensures { IsTrue result ↔ IsEntry image.now.layout.nodes (line_spot image.now.layout image.now.words line) }
{
    let nodes = image.layout().nodes();
    let kind = line_word(image, line, line::KIND);
    let node = line_word(image, line, line::NODE);
    line_word(image, line, line::STATE) <= READY
        && (kind == SPLIT || kind == MERGE)
        && (1 <= node && node < nodes)
        && has_anchor(image, line)
        && line_word(image, line, line::LEFT) < nodes
        && line_word(image, line, LAST) == 0
}

/// Whether a line is in order.
fn is_fit(image: &Image, line: u64) -> bool
    requires { line < 8 * image.now.layout.callers }
    ensures { IsTrue result ↔ IsFitLine image.now.layout.nodes (line_spot image.now.layout image.now.words line) }
{
    line_word(image, line, line::STATE) == EMPTY || is_entry(image, line)
}

/// The lowest line that isn't in order.
fn unfit_line(image: &Image) -> Option<u64>
    ensures { IsLowest (IsUnfit image.now.layout image.now.words) result }
{
    for line in 0..line_count(image) {
        if !is_fit(image, line) {
            return Some(line);
        }
    }
    None
}

/// The lowest word that breaks rule 9.
pub(crate) fn wrong_line(image: &Image) -> Option<u64>
    ensures { IsLowest (IsNumberOf image.now.layout (BreaksLines image.now.layout image.now.words)) result }
{
    let line = unfit_line(image)?;
    Some(number_of(image, line, line::STATE))
}
