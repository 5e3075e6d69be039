//! Whether a leaf of the tree is in order.

ghost use Rattle.std.specs.Prelude.{◌≡◌, ◌↔◌, IsTrue};
ghost use Rattle.tree_law.specs.Trees.{Leaf};
ghost use Rattle.image_layer_rules.specs.Faults.{IsWrong};

use crate::key::is_key;
use crate::words::{leaf_count, leaf_key, leaf_word};
use pm_words::Image;
use pm_words::offsets::leaf;

/// Whether there is no such leaf, or its node word is that of no node, or its key neither zero nor a name.
pub(crate) fn is_wrong_leaf(image: &Image, leaf: u64) -> bool
    ensures { IsTrue result ↔ IsWrong image.now.layout image.now.words (Leaf leaf) }
{
    if leaf_count(image) <= leaf {
        return true;
    }
    let word = leaf_word(image, leaf, leaf::NODE);
    if word == 0 {
        return true;
    }
    if word > image.layout().nodes() {
        return true;
    }
    !is_key(leaf_key(image, leaf))
}
