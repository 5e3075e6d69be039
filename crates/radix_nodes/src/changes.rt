//! The stores that change the children of a cell in use.

ghost use Rattle.std.specs.Prelude.{◌≡◌, ◌≢◌, ℕ, ◌+◌, ◌<◌, ◌≤◌, ◌↔◌, None, IsNone, IsTrue, IfSome, MatchOption};
ghost use Rattle.radix_nodes.specs.Cells.{words_of, children_of, seek, IsReference, IsCell};
ghost use Rattle.radix_nodes.specs.Entries.{IsFreeEntry, IsEntryOf};
ghost use Rattle.radix_nodes.specs.Places.{IsFreePlace, AddsEntry, AddsInPlace, index_store_of};
ghost use Rattle.radix_nodes.specs.Changes.{Adds, IsFull, HasPlaces, IsTaken, Removes, IsOneMore, HasTwoMore};
ghost use Rattle.radix_nodes.specs.Changes.{SetsChild};

use crate::cell::{Cell, CellStore, ENTRY, PLACE_COUNT, byte_set};
use crate::lookup::{child_word, entry_with};
use pm_words::codes::reference::{FORM_4, FORM_16, FORM_48};
use pm_words::offsets::cell::{FIRST, FIRST_OF_4, PLACES};

/// The stores by which a child comes into a cell. In form 48 `first` puts its reference into a free place, and is to be
/// durable before `switch` is made; in the other forms there is `switch` alone.
#[derive(Clone, Copy)]
pub struct Added {
    pub first: Option<CellStore>,
    pub switch: CellStore,
}

/// How a child goes.
#[derive(Clone, Copy)]
pub enum Removed {
    /// By this store, which leaves two or more children.
    Store(CellStore),
    /// One child would be left. This is its reference, which can stand in the place of the cell.
    Only(u64),
}

/// Adds a child under a byte that has none. There is no way where the form has no free place.
pub fn add(cell: &Cell, byte: u8, reference: u64) -> Option<Added>
    requires none { children_of cell.now byte ≡ 0 }
    requires reference { IsReference reference }
    ensures full { IsCell cell.now → (IsNone result ↔ IsFull cell.now.kind (words_of cell.now)) }
    ensures added { IsCell cell.now → IfSome result (Adds cell.now byte reference) }
{
    let at = byte as u64;
    match cell.kind {
        FORM_4 => add_entry(cell, FIRST_OF_4, 4, at, reference),
        FORM_16 => add_entry(cell, FIRST, 16, at, reference),
        FORM_48 => add_in_place(cell, at, reference),
        _ => Some(alone(FIRST + at, reference)),
    }
}

/// Forms 4 and 16: a child comes into an entry that is 0.
fn add_entry(cell: &Cell, first: u64, count: u64, byte: u64, reference: u64) -> Option<Added>
    requires words { first + count ≤ 264 }
    requires byte { byte < 256 }
    requires reference { IsReference reference }
    ensures { MatchOption result (HasPlaces (words_of cell.now) first count)
        (AddsEntry (words_of cell.now) first count byte reference) }
{
    let offset = free_entry(cell, first, count)?;
    Some(alone(offset, byte * ENTRY + reference))
}

/// Form 48: a reference comes into a free place, and then the byte gets the place.
fn add_in_place(cell: &Cell, byte: u64, reference: u64) -> Option<Added>
    requires byte { byte < 256 }
    ensures { MatchOption result ((place : ℕ) → place < 48 → IsTaken (words_of cell.now) place)
        (AddsInPlace cell.now byte reference) }
{
    let place = free_place(cell)?;
    Some(Added {
        first: Some(CellStore {
            offset: PLACES + place,
            value: reference,
        }),
        switch: index_store(cell, byte, place + 1),
    })
}

/// One store alone.
fn alone(offset: u64, value: u64) -> Added
    ensures { result ≡ record { first = None; switch = record { offset = offset; value = value } } }
{
    Added {
        first: None,
        switch: CellStore { offset, value },
    }
}

/// Removes the child under a byte that has one.
pub fn remove(cell: &Cell, byte: u8) -> Removed
    requires { children_of cell.now byte ≢ 0 }
    ensures { IsCell cell.now → Removes cell.now byte result }
{
    let at = byte as u64;
    match one_more(cell, at) {
        Some(reference) => Removed::Only(reference),
        None => Removed::Store(removing(cell, at)),
    }
}

/// The store that takes out the child under a byte.
fn removing(cell: &Cell, byte: u64) -> CellStore
    requires byte { byte < 256 }
    requires child { children_of cell.now byte ≢ 0 }
    ensures { IsCell cell.now → HasTwoMore (children_of cell.now) byte → SetsChild cell.now result byte 0 }
{
    match cell.kind {
        FORM_4 => clearing(cell, FIRST_OF_4, 4, byte),
        FORM_16 => clearing(cell, FIRST, 16, byte),
        FORM_48 => index_store(cell, byte, 0),
        _ => CellStore {
            offset: FIRST + byte,
            value: 0,
        },
    }
}

/// Forms 4 and 16: the entry with the byte becomes 0.
fn clearing(cell: &Cell, first: u64, count: u64, byte: u64) -> CellStore
    requires words { first + count ≤ 264 }
    requires child { seek (words_of cell.now) first count byte ≢ 0 }
    ensures entry { IsEntryOf (words_of cell.now) first count byte result.offset }
    ensures value { result.value ≡ 0 }
{
    let Some(offset) = entry_with(cell, first, count, byte) else {
        unreachable!()
    };
    CellStore { offset, value: 0 }
}

/// Form 48: the store of a byte's place and one, or of 0, into the index.
fn index_store(cell: &Cell, byte: u64, index: u64) -> CellStore
    requires byte { byte < 256 }
    requires index { index < 256 }
    ensures { result ≡ index_store_of cell.now byte index }
{
    let offset = FIRST + byte / 8;
    CellStore {
        offset,
        value: byte_set(cell.word(offset), byte % 8, index),
    }
}

/// The offset of an entry that is 0.
fn free_entry(cell: &Cell, first: u64, count: u64) -> Option<u64>
    requires { first + count ≤ 264 }
    ensures { MatchOption result (HasPlaces (words_of cell.now) first count)
        (IsFreeEntry (words_of cell.now) first count) }
{
    for offset in first..first + count {
        if cell.word(offset) == 0 {
            return Some(offset);
        }
    }
    None
}

/// Form 48: a place that no byte has.
fn free_place(cell: &Cell) -> Option<u64>
    ensures { MatchOption result ((place : ℕ) → place < 48 → IsTaken (words_of cell.now) place)
        (IsFreePlace (words_of cell.now)) }
{
    for place in 0..PLACE_COUNT {
        if !is_taken(cell, place) {
            return Some(place);
        }
    }
    None
}

/// Whether some byte has this place.
fn is_taken(cell: &Cell, place: u64) -> bool
    requires { place < 48 }
    ensures { IsTrue result ↔ IsTaken (words_of cell.now) place }
{
    for byte in 0..256 {
        if cell.index(byte) == place + 1 {
            return true;
        }
    }
    false
}

/// The reference of the one other child, where there is just one.
fn one_more(cell: &Cell, byte: u64) -> Option<u64>
    ensures { IsCell cell.now → MatchOption result (HasTwoMore (children_of cell.now) byte)
        (IsOneMore (children_of cell.now) byte) }
{
    let mut found = 0;
    for other in 0..256 {
        let reference = child_word(cell, other);
        if other != byte && reference != 0 {
            if found != 0 {
                return None;
            }
            found = reference;
        }
    }
    Some(found)
}
