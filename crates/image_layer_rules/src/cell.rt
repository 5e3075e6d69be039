//! Whether a cell of the tree is in order, by itself and with the heads of its children.

ghost use Rattle.std.specs.Prelude.{◌≡◌, ◌≢◌, ℕ, ◌<◌, ◌↔◌, IsTrue, true};
ghost use Rattle.radix_nodes.specs.Keys.{key_bytes};
ghost use Rattle.radix_nodes.specs.Cells.{children};
ghost use Rattle.tree_law.specs.Trees.{HasTwo};
ghost use Rattle.tree_law.specs.Words.{kind_of};
ghost use Rattle.image_layer_rules.specs.Faults.{image_room, image_tree, image_cell, IsWrong};
ghost use Rattle.image_layer_rules.specs.Checks.{IsRead, IsRightChild, HasWrongChild, HasForm, IsWrongCell};

use crate::children::{BYTES, child_of, has_two};
use crate::form::is_form;
use crate::heads::{has_prefix, is_under};
use crate::words::cell_word;
use pm_words::Image;
use pm_words::offsets::cell::DEPTH;
use radix_nodes::{Cell, KEY_BYTES};

/// Whether a branch byte has no child, or one that is deeper and whose key or prefix goes on from the cell's.
fn is_right_child(image: &Image, reference: u64, cell: &Cell, byte: u64) -> bool
    requires read { IsRead image.now.layout image.now.words reference cell.now }
    requires depth { (image_tree image.now.layout image.now.words).depth reference < key_bytes }
    requires byte { byte < 256 }
    ensures { IsTrue result ↔ IsRightChild image.now.layout image.now.words reference byte }
{
    let child = child_of(cell, byte);
    if child == 0 {
        return true;
    }
    is_under(image, reference, byte, child)
}

/// Whether some branch byte has a child that isn't so.
fn has_wrong_child(image: &Image, reference: u64, cell: &Cell) -> bool
    requires read { IsRead image.now.layout image.now.words reference cell.now }
    requires depth { (image_tree image.now.layout image.now.words).depth reference < key_bytes }
    ensures { IsTrue result ↔ HasWrongChild image.now.layout image.now.words reference }
{
    for byte in 0..BYTES {
        if !is_right_child(image, reference, cell, byte) {
            return true;
        }
    }
    false
}

/// Whether a cell's words are of its form.
fn has_form(image: &Image, reference: u64, cell: &Cell) -> bool
    requires read { IsRead image.now.layout image.now.words reference cell.now }
    ensures { IsTrue result ↔ HasForm image.now.layout image.now.words reference }
{
    is_form(cell)
}

/// Whether a cell has two children.
fn has_two_children(image: &Image, reference: u64, cell: &Cell) -> bool
    requires read { IsRead image.now.layout image.now.words reference cell.now }
    requires form { HasForm image.now.layout image.now.words reference }
    ensures { IsTrue result ↔ HasTwo (image_tree image.now.layout image.now.words) reference }
{
    has_two(cell)
}

/// Whether a cell, of which these are the words, is out of order, by itself or with the heads of its children.
pub(crate) fn is_wrong_cell(image: &Image, reference: u64, cell: &Cell) -> bool
    requires number { (image_room image.now.layout).is_cell reference ≡ true }
    requires read { IsRead image.now.layout image.now.words reference cell.now }
    ensures { IsTrue result ↔ IsWrongCell image.now.layout image.now.words reference }
{
    if KEY_BYTES <= cell_word(image, reference, DEPTH) {
        return true;
    }
    if !has_form(image, reference, cell) {
        return true;
    }
    if !has_prefix(image, reference) {
        return true;
    }
    if !has_two_children(image, reference, cell) {
        return true;
    }
    has_wrong_child(image, reference, cell)
}
