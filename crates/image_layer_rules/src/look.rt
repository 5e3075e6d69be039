//! What a key leads to in a tree in order.

ghost use Rattle.std.specs.Prelude.{◌≢◌, ◌≤◌};
ghost use Rattle.layer_map.specs.Keys.{key_number};
ghost use Rattle.tree_law.specs.Trees.{depth_of};
ghost use Rattle.tree_law.specs.Words.{reference_of};
ghost use Rattle.layer_map.specs.Keys.{IsKey};
ghost use Rattle.image_layer_rules.specs.Faults.{image_tree};
ghost use Rattle.image_layer_rules.specs.Checks.{IsWrongFrom};
ghost use Rattle.image_layer_rules.specs.Covers.{LeadsTo};

use crate::children::child_of;
use crate::key::is_same;
use crate::words::{cell_word, leaf_key, leaf_word, read_cell};
use pm_words::Image;
use pm_words::codes::reference::{KIND, LEAF};
use pm_words::offsets::cell::DEPTH;
use pm_words::offsets::leaf;
use radix_nodes::{Key, key_byte};

/// The node to which a key leads from a reference, of which it is known how deep at least it has to be.
pub(crate) fn node_from(image: &Image, reference: u64, least: u64, key: &Key) -> Option<u64>
    requires least { least ≤ depth_of (image_tree image.now.layout image.now.words) (reference_of reference) }
    requires right { reference ≢ 0 → ¬ IsWrongFrom image.now.layout image.now.words (reference_of reference) }
    requires key { IsKey key.now }
    ensures { LeadsTo image.now.layout image.now.words reference least (key_number key.now) result }
{
    if reference == 0 {
        return None;
    }
    if reference / KIND == LEAF {
        let number = reference % KIND;
        if !is_same(leaf_key(image, number), *key) {
            return None;
        }
        return Some(leaf_word(image, number, leaf::NODE).saturating_sub(1));
    }
    let cell = read_cell(image, reference);
    let depth = cell_word(image, reference, DEPTH);
    let child = child_of(&cell, key_byte(key, depth) as u64);
    node_from(image, child, depth + 1, key)
}
