//! New cells: the next form of a full one, and a cell for two children.

ghost use Rattle.std.specs.Prelude.{◌≡◌, ◌≢◌, ℕ, ◌+◌, ◌<◌, ◌≤◌, replicate, slice_index};
ghost use Rattle.radix_nodes.specs.Keys.{key_bytes};
ghost use Rattle.radix_nodes.specs.Cells.{IsReference, IsCell, children_of};
ghost use Rattle.radix_nodes.specs.Places.{taken_in};
ghost use Rattle.radix_nodes.specs.Changes.{IsGrown, IsPair};
ghost use Rattle.radix_nodes.specs.Making.{copied, bare_of, in_16, in_48, whole_in_256, grown_of, larger_of, IsLarger};
ghost use Rattle.radix_nodes.specs.Making.{headed_words, pair_of};

use crate::cell::{Branch, CELL_WORDS, Cell, ENTRY, byte_set};
use crate::key::Key;
use crate::lookup::child_word;
use cat_key::WORDS;
use pm_words::codes::reference::{FORM_4, FORM_16, FORM_48, FORM_256};
use pm_words::offsets::cell::{DEPTH, FIRST, FIRST_OF_4, PLACES, PREFIX};

/// The cell of the next form with the same depth, prefix and children.
pub fn grown(cell: &Cell) -> Cell
    requires { (2 ≤ cell.now.kind) × (cell.now.kind ≤ 4) }
    ensures is { result ≡ grown_of cell.now }
    ensures grown { IsCell cell.now → IsGrown cell.now result }
{
    match cell.kind {
        FORM_4 => grown_to_16(cell),
        FORM_16 => grown_to_48(cell),
        _ => grown_to_256(cell),
    }
}

/// The cell of the next form with the same depth and prefix, with this child and the same ones else.
pub fn larger(cell: &Cell, byte: u8, reference: u64) -> Cell
    requires kind { (2 ≤ cell.now.kind) × (cell.now.kind ≤ 4) }
    requires reference { IsReference reference }
    ensures is { result ≡ larger_of cell.now byte reference }
    ensures larger { IsCell cell.now → children_of cell.now byte ≡ 0 → IsLarger cell.now byte reference result }
{
    let at = byte as u64;
    let mut larger = grown(cell);
    match cell.kind {
        FORM_4 => larger.set(FIRST + 4, at * ENTRY + reference),
        FORM_16 => take_in(&mut larger, 16, at * ENTRY + reference),
        _ => larger.set(FIRST + at, reference),
    }
    larger
}

/// A cell without children, with the depth and the prefix of this one.
fn bare(cell: &Cell, kind: u64) -> Cell
    ensures { result ≡ bare_of cell.now kind }
{
    let mut words = no_words();
    for at in 0..WORDS + 1 {
        words[at] = cell.words[at];
    }
    Cell { kind, words }
}

/// The entries come into the first ones of form 16.
fn grown_to_16(cell: &Cell) -> Cell
    ensures { result ≡ in_16 cell.now 4 }
{
    let mut grown = bare(cell, FORM_16);
    for entry in 0..4 {
        grown.set(FIRST + entry, cell.word(FIRST_OF_4 + entry));
    }
    grown
}

/// Each entry's reference comes into the place of the entry's number.
fn grown_to_48(cell: &Cell) -> Cell
    ensures { result ≡ in_48 cell.now 16 }
{
    let mut grown = bare(cell, FORM_48);
    for entry in 0..16 {
        take_in(&mut grown, entry, cell.word(FIRST + entry));
    }
    grown
}

/// Form 48: an entry's reference comes into a place, and its byte gets the place.
fn take_in(cell: &mut Cell, place: u64, entry: u64)
    requires { place < 48 }
    ensures { cell.new ≡ taken_in cell.old place entry }
{
    if entry == 0 {
        return;
    }
    let byte = entry / ENTRY % 256;
    cell.set(PLACES + place, entry % ENTRY);
    let offset = FIRST + byte / 8;
    let index = byte_set(cell.word(offset), byte % 8, place + 1);
    cell.set(offset, index);
}

/// Each reference comes to its byte.
fn grown_to_256(cell: &Cell) -> Cell
    ensures { result ≡ whole_in_256 cell.now }
{
    let mut grown = bare(cell, FORM_256);
    for byte in 0..256 {
        grown.set(FIRST + byte, child_word(cell, byte));
    }
    grown
}

/// A cell of form 4 with two children.
pub fn paired(depth: u64, prefix: Key, one: Branch, two: Branch) -> Cell
    requires depth { depth < key_bytes }
    requires apart { one.byte ≢ two.byte }
    requires one { IsReference one.reference }
    requires two { IsReference two.reference }
    ensures is { result ≡ pair_of depth (slice_index prefix) one two }
    ensures pair { IsPair depth (slice_index prefix) one two result }
{
    let mut words = headed(depth, prefix);
    words[FIRST_OF_4 as usize] = one.entry();
    words[FIRST_OF_4 as usize + 1] = two.entry();
    Cell {
        kind: FORM_4,
        words,
    }
}

/// A depth and a prefix, and zeros behind them.
fn headed(depth: u64, prefix: Key) -> [u64; CELL_WORDS]
    ensures { result ≡ headed_words depth (slice_index prefix) 3 }
{
    let mut words = no_words();
    words[DEPTH as usize] = depth;
    for at in 0..WORDS {
        words[PREFIX as usize + at] = prefix[at];
    }
    words
}

/// Zeros.
fn no_words() -> [u64; CELL_WORDS]
    ensures { result ≡ replicate 264 0 }
{
    [0; CELL_WORDS]
}
