//! Whether the words of a cell are of its form.

ghost use Rattle.std.specs.Prelude.{◌≡◌, ℕ, ◌+◌, ◌<◌, ◌≤◌, ◌↔◌, IsTrue};
ghost use Rattle.radix_nodes.specs.Cells.{words_of, children_of, entry_byte, HasSpare, AreEntries, IsIndexed, IsForm};
ghost use Rattle.radix_nodes.specs.Cells.{HasTwo, index_of};
ghost use Rattle.image_layer_rules.specs.Forms.{HasTwinEntry, IsEntryIn, HasTwinPlace, IsPlaceIn};

use pm_words::codes::reference::{FORM_4, FORM_16, FORM_48};
use pm_words::offsets::cell::{FIRST, FIRST_OF_4};
use radix_nodes::{Cell, ENTRY, byte_in, child};

/// Whether the words 4 to 7 are 0.
fn has_spare(cell: &Cell) -> bool
    ensures { IsTrue result ↔ HasSpare (words_of cell.now) }
{
    for offset in 4..8 {
        if cell.words[offset] != 0 {
            return false;
        }
    }
    true
}

/// Whether an entry before this one has its byte.
fn has_twin_entry(cell: &Cell, first: u64, entry: u64) -> bool
    requires { first + entry < 264 }
    ensures { IsTrue result ↔ HasTwinEntry (words_of cell.now) first entry }
{
    let byte = cell.words[(first + entry) as usize] / ENTRY;
    for other in 0..entry {
        let word = cell.words[(first + other) as usize];
        if word != 0 && word / ENTRY == byte {
            return true;
        }
    }
    false
}

/// Whether an entry is 0, or has a byte that no entry before it has, and a reference.
fn is_entry(cell: &Cell, first: u64, entry: u64) -> bool
    requires { first + entry < 264 }
    ensures { IsTrue result ↔ IsEntryIn (words_of cell.now) first entry }
{
    let word = cell.words[(first + entry) as usize];
    if word == 0 {
        return true;
    }
    word / ENTRY < 256 && word % ENTRY != 0 && !has_twin_entry(cell, first, entry)
}

/// Forms 4 and 16: whether each entry is in order.
fn are_entries(cell: &Cell, first: u64, count: u64) -> bool
    requires { first + count ≤ 264 }
    ensures { IsTrue result ↔ AreEntries (words_of cell.now) first count }
{
    for entry in 0..count {
        if !is_entry(cell, first, entry) {
            return false;
        }
    }
    true
}

/// Form 48: the place of a branch byte and one, or 0.
fn index(cell: &Cell, byte: u64) -> u64
    requires { byte < 256 }
    ensures { result ≡ index_of (words_of cell.now) byte }
{
    byte_in(cell.words[(8 + byte / 8) as usize], byte % 8)
}

/// Whether a branch byte before this one has its place.
fn has_twin_place(cell: &Cell, byte: u64) -> bool
    requires { byte < 256 }
    ensures { IsTrue result ↔ HasTwinPlace (words_of cell.now) byte }
{
    let place = index(cell, byte);
    for other in 0..byte {
        if index(cell, other) == place {
            return true;
        }
    }
    false
}

/// Whether a branch byte has no place, or one that none before it has, with a reference.
fn is_place(cell: &Cell, byte: u64) -> bool
    requires { byte < 256 }
    ensures { IsTrue result ↔ IsPlaceIn (words_of cell.now) byte }
{
    let place = index(cell, byte);
    if place == 0 {
        return true;
    }
    place <= 48 && cell.words[(39 + place) as usize] != 0 && !has_twin_place(cell, byte)
}

/// Form 48: whether each index byte is in order.
fn is_indexed(cell: &Cell) -> bool
    ensures { IsTrue result ↔ IsIndexed (words_of cell.now) }
{
    for byte in 0..256 {
        if !is_place(cell, byte) {
            return false;
        }
    }
    true
}

/// Whether the words of a cell are of its form.
pub(crate) fn is_form(cell: &Cell) -> bool
    ensures { IsTrue result ↔ IsForm cell.now.kind (words_of cell.now) }
{
    match cell.kind {
        FORM_4 => are_entries(cell, FIRST_OF_4, 4),
        FORM_16 => has_spare(cell) && are_entries(cell, FIRST, 16),
        FORM_48 => has_spare(cell) && is_indexed(cell),
        _ => has_spare(cell),
    }
}
