//! Which keys the lines of the log exempt.

ghost use Rattle.std.specs.Prelude.{◌↔◌, IsTrue};
ghost use Rattle.layer_map.specs.Keys.{key_number};
ghost use Rattle.updater_law.specs.Covers.{IsOpenFor};
ghost use Rattle.image_layer_rules.specs.Anchors.{image_lines};

use crate::key::is_same;
use image_rules::read::{line_anchor, line_count, line_word};
use pm_words::Image;
use pm_words::codes::state::EMPTY;
use pm_words::offsets::line;
use radix_nodes::Key;

/// Whether some line that isn't EMPTY has this anchor.
pub fn is_open_for(image: &Image, key: Key) -> bool
    ensures { IsTrue result ↔ IsOpenFor (image_lines image.now.layout image.now.words) (key_number key) }
{
    for line in 0..line_count(image) {
        if line_word(image, line, line::STATE) != EMPTY && is_same(line_anchor(image, line), key) {
            return true;
        }
    }
    false
}
