//! The walk over the tree that sets the marks.

ghost use Rattle.std.specs.Prelude.{◌≡◌, ◌<◌, ◌≤◌, slice_set};
ghost use Rattle.pm_words.specs.Locations.{HasLocation, Mark, address_of};
ghost use Rattle.pm_words.specs.Rows.{IsRow, durable_row};
ghost use Rattle.radix_nodes.specs.Cells.{children_of};
ghost use Rattle.tree_law.specs.Trees.{IsSoundFrom, IsTree, depth_of};
ghost use Rattle.tree_law.specs.Words.{kind_of, reference_of};
ghost use Rattle.tree_marks.specs.Marked.{row_room, row_tree, MarksFrom, AreMarked};

use crate::words::{cell_word, is_cell, leaf_count, read_cell, root_of};
use pm_words::Memory;
use pm_words::codes::reference::{KIND, LEAF};
use pm_words::offsets::cell::DEPTH;
use radix_nodes::{Cell, KEY_BYTES, child};

/// How many branch bytes there are.
const BYTES: u64 = 256;

/// Stores 1 into the mark of each leaf and cell that the root leads to, whatever the words are: no other word changes,
/// and no other mark. Of a tree in order it comes to all of them.
///
/// It takes no memory, and is never more than 25 calls deep.
pub fn mark_tree(memory: &mut Memory)
    ensures layout { memory.new.layout ≡ memory.old.layout }
    ensures marks { MarksFrom memory.old.layout memory.old.words
        (row_tree memory.old.layout memory.old.words).root memory.new.words }
    ensures all { IsTree (row_room memory.old.layout) (row_tree memory.old.layout memory.old.words) →
        AreMarked memory.old.layout memory.old.words (row_tree memory.old.layout memory.old.words).root
        memory.new.words }
    ensures crash { durable_row memory.old.layout memory.new.words ≡ durable_row memory.old.layout memory.old.words }
{
    let root = root_of(memory);
    mark_from(memory, root, 0);
}

/// Sets the marks of what a reference leads to, of which it is known how deep at least it has to be.
fn mark_from(memory: &mut Memory, reference: u64, least: u64)
    ensures layout { memory.new.layout ≡ memory.old.layout }
    ensures marks { MarksFrom memory.old.layout memory.old.words (reference_of reference) memory.new.words }
    ensures all { least ≤ depth_of (row_tree memory.old.layout memory.old.words) (reference_of reference) →
        IsSoundFrom (row_room memory.old.layout) (row_tree memory.old.layout memory.old.words)
        (reference_of reference) →
        AreMarked memory.old.layout memory.old.words (reference_of reference) memory.new.words }
{
    if reference / KIND == LEAF {
        mark_leaf(memory, reference);
        return;
    }
    if !is_cell(memory, reference) {
        return;
    }
    let depth = cell_word(memory, reference, DEPTH);
    if depth < least || KEY_BYTES <= depth {
        return;
    }
    let cell = read_cell(memory, reference);
    set_mark(memory, reference / KIND, reference % KIND);
    for byte in 0..BYTES {
        mark_from(memory, child_of(&cell, byte), depth + 1);
    }
}

/// Sets the mark of a leaf, by its reference, if there is such a leaf.
fn mark_leaf(memory: &mut Memory, reference: u64)
    requires { kind_of reference ≡ 1 }
    ensures layout { memory.new.layout ≡ memory.old.layout }
    ensures marks { MarksFrom memory.old.layout memory.old.words (reference_of reference) memory.new.words }
    ensures all { IsSoundFrom (row_room memory.old.layout) (row_tree memory.old.layout memory.old.words)
        (reference_of reference) →
        AreMarked memory.old.layout memory.old.words (reference_of reference) memory.new.words }
{
    if leaf_count(memory) <= reference % KIND {
        return;
    }
    set_mark(memory, LEAF, reference % KIND);
}

/// Stores 1 into a mark.
fn set_mark(memory: &mut Memory, kind: u64, number: u64)
    requires { HasLocation memory.old.layout (Mark kind number) }
    ensures set { memory.new ≡ record memory.old {
      words = slice_set memory.old.words (address_of memory.old.layout (Mark kind number)) 1;
    } }
    ensures row { IsRow memory.old.layout memory.old.words }
{
    let layout = memory.layout();
    memory.store(layout.mark(kind, number), 1);
}

/// The reference under a branch byte, or 0.
fn child_of(cell: &Cell, byte: u64) -> u64
    requires { byte < 256 }
    ensures { result ≡ children_of cell.now byte }
{
    match child(cell, byte as u8) {
        Some(reference) => reference,
        None => 0,
    }
}
