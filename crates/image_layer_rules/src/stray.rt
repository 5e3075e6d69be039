//! Whether a leaf leads its key elsewhere than the list has it.

ghost use Rattle.std.specs.Prelude.{◌≢◌, ◌≤◌, ◌↔◌, IsTrue};
ghost use Rattle.layer_map.specs.Keys.{key_number};
ghost use Rattle.image_rules.specs.NodeSets.{AreListed};
ghost use Rattle.tree_law.specs.Trees.{depth_of};
ghost use Rattle.tree_law.specs.Words.{reference_of};
ghost use Rattle.image_layer_rules.specs.Faults.{image_tree};
ghost use Rattle.image_layer_rules.specs.Checks.{IsWrongFrom};
ghost use Rattle.image_layer_rules.specs.Covers.{IsListedWith, IsStray, IsStrayFrom};

use crate::children::{BYTES, child_of};
use crate::key::is_same;
use crate::line::is_open_for;
use crate::words::{cell_word, leaf_key, leaf_word, read_cell};
use image_rules::NodeSet;
use image_rules::read::anchor_of;
use pm_words::Image;
use pm_words::codes::reference::{KIND, LEAF};
use pm_words::offsets::cell::DEPTH;
use pm_words::offsets::leaf;
use radix_nodes::Key;

/// Whether a node is a listed one with this key as its anchor.
fn is_listed_with(image: &Image, listed: &NodeSet, node: u64, key: Key) -> bool
    requires listed { AreListed image.now.layout image.now.words listed.now }
    ensures { IsTrue result ↔ IsListedWith image.now.layout image.now.words node (key_number key) }
{
    if !listed.contains(node) {
        return false;
    }
    is_same(anchor_of(image, node), key)
}

/// Whether a leaf leads its key elsewhere than to the listed node that has it as its anchor, if no line exempts the
/// key.
fn is_stray(image: &Image, listed: &NodeSet, leaf: u64) -> bool
    requires listed { AreListed image.now.layout image.now.words listed.now }
    ensures { IsTrue result ↔ IsStray image.now.layout image.now.words leaf }
{
    let node = leaf_word(image, leaf, leaf::NODE).saturating_sub(1);
    let key = leaf_key(image, leaf);
    if is_listed_with(image, listed, node, key) {
        return false;
    }
    !is_open_for(image, key)
}

/// Whether such a leaf is reached from a reference, of which it is known how deep at least it has to be.
pub(crate) fn is_stray_from(image: &Image, listed: &NodeSet, reference: u64, least: u64) -> bool
    requires listed { AreListed image.now.layout image.now.words listed.now }
    requires least { least ≤ depth_of (image_tree image.now.layout image.now.words) (reference_of reference) }
    requires right { reference ≢ 0 → ¬ IsWrongFrom image.now.layout image.now.words (reference_of reference) }
    ensures { IsTrue result ↔ IsStrayFrom image.now.layout image.now.words (reference_of reference) }
{
    if reference == 0 {
        return false;
    }
    if reference / KIND == LEAF {
        return is_stray(image, listed, reference % KIND);
    }
    let cell = read_cell(image, reference);
    let next = cell_word(image, reference, DEPTH) + 1;
    for byte in 0..BYTES {
        let child = child_of(&cell, byte);
        if is_stray_from(image, listed, child, next) {
            return true;
        }
    }
    false
}
