//! Whether something is wrong in the tree of an image, by a walk from the root.

ghost use Rattle.std.specs.Prelude.{◌≤◌, ◌↔◌, IsTrue};
ghost use Rattle.tree_law.specs.Trees.{depth_of};
ghost use Rattle.tree_law.specs.Words.{reference_of};
ghost use Rattle.image_layer_rules.specs.Faults.{image_tree};
ghost use Rattle.image_layer_rules.specs.Checks.{IsWrongFrom};

use crate::cell::is_wrong_cell;
use crate::children::{BYTES, child_of};
use crate::leaf::is_wrong_leaf;
use crate::words::{cell_word, is_cell, read_cell};
use pm_words::Image;
use pm_words::codes::reference::{KIND, LEAF};
use pm_words::offsets::cell::DEPTH;

/// Whether something is wrong that is reached from a reference, of which it is known how deep at least it has to be.
///
/// A cell's children are gone to once nothing is wrong with the cell and with their heads. So they are deeper, and the
/// walk is never more than 25 calls deep.
pub(crate) fn is_wrong_from(image: &Image, reference: u64, least: u64) -> bool
    requires { least ≤ depth_of (image_tree image.now.layout image.now.words) (reference_of reference) }
    ensures { IsTrue result ↔ IsWrongFrom image.now.layout image.now.words (reference_of reference) }
{
    if reference == 0 {
        return true;
    }
    if reference / KIND == LEAF {
        return is_wrong_leaf(image, reference % KIND);
    }
    if !is_cell(image, reference) {
        return true;
    }
    let cell = read_cell(image, reference);
    if is_wrong_cell(image, reference, &cell) {
        return true;
    }
    let next = cell_word(image, reference, DEPTH) + 1;
    for byte in 0..BYTES {
        let child = child_of(&cell, byte);
        if child != 0 && is_wrong_from(image, child, next) {
            return true;
        }
    }
    false
}
