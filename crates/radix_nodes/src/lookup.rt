//! Look-ups among the children of a cell.

ghost use Rattle.std.specs.Prelude.{◌≡◌, ℕ, ◌+◌, ◌<◌, ◌≤◌, MatchOption};
ghost use Rattle.radix_nodes.specs.Cells.{words_of, children_of, if_some, seek, indexed, IsBelow, HasNoneBelow};
ghost use Rattle.radix_nodes.specs.Entries.{IsEntryOf, HasNoEntry};

use crate::cell::{Cell, ENTRY};
use pm_words::codes::reference::{FORM_4, FORM_16, FORM_48};
use pm_words::offsets::cell::{FIRST, FIRST_OF_4, PLACES};

/// The child under this branch byte.
pub fn child(cell: &Cell, byte: u8) -> Option<u64>
    ensures { result ≡ if_some (children_of cell.now byte) }
{
    let reference = child_word(cell, byte as u64);
    if reference == 0 {
        return None;
    }
    Some(reference)
}

/// The child under the greatest branch byte below this one.
pub fn below(cell: &Cell, byte: u8) -> Option<u64>
    ensures { MatchOption result (HasNoneBelow (children_of cell.now) byte) (IsBelow (children_of cell.now) byte) }
{
    let limit = byte as u64;
    for passed in 0..limit {
        let reference = child_word(cell, limit - 1 - passed);
        if reference != 0 {
            return Some(reference);
        }
    }
    None
}

/// The reference under a branch byte, or 0.
pub(crate) fn child_word(cell: &Cell, byte: u64) -> u64
    requires { byte < 256 }
    ensures { result ≡ children_of cell.now byte }
{
    match cell.kind {
        FORM_4 => in_entries(cell, FIRST_OF_4, 4, byte),
        FORM_16 => in_entries(cell, FIRST, 16, byte),
        FORM_48 => in_index(cell, byte),
        _ => cell.word(FIRST + byte),
    }
}

/// Forms 4 and 16: the reference in the entry with this byte, or 0.
fn in_entries(cell: &Cell, first: u64, count: u64, byte: u64) -> u64
    requires { first + count ≤ 264 }
    ensures { result ≡ seek (words_of cell.now) first count byte }
{
    match entry_with(cell, first, count, byte) {
        Some(offset) => cell.word(offset) % ENTRY,
        None => 0,
    }
}

/// The offset of the entry with this byte, the last one if there were several.
pub(crate) fn entry_with(cell: &Cell, first: u64, count: u64, byte: u64) -> Option<u64>
    requires { first + count ≤ 264 }
    ensures { MatchOption result (HasNoEntry (words_of cell.now) first count byte)
        (IsEntryOf (words_of cell.now) first count byte) }
{
    for passed in 0..count {
        let offset = first + count - 1 - passed;
        let word = cell.word(offset);
        if word != 0 && word / ENTRY == byte {
            return Some(offset);
        }
    }
    None
}

/// Form 48: the reference in the byte's place, or 0.
fn in_index(cell: &Cell, byte: u64) -> u64
    requires { byte < 256 }
    ensures { result ≡ indexed (words_of cell.now) byte }
{
    let place = cell.index(byte);
    if place == 0 {
        return 0;
    }
    // An index byte out of order may point past the cell.
    let offset = PLACES - 1 + place;
    if offset < 264 { cell.word(offset) } else { 0 }
}
