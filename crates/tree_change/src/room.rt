//! Looking where a new child comes into a cell.

ghost use Rattle.std.specs.Prelude.{◌≡◌, ◌<◌, ◌≤◌};
ghost use Rattle.tree_floor.specs.Scans.{entry_count};
ghost use Rattle.tree_change.specs.Rooms.{has_byte, places_start, places_offset, places_turned, entry_turned};
ghost use Rattle.tree_change.specs.Rooms.{index_turned, IsPlaces};

use pm_words::Turn;
use pm_words::codes::reference::FORM_48;
use pm_words::offsets::cell::FIRST;
use radix_nodes::{INDEX_WORDS, PLACE_COUNT, byte_in};
use tree_floor::{entry_count, first_entry};

/// Looks in a cell of form 4, 16 or 48 for a place that is free, a word at a time. Form 256 has one for each byte.
#[derive(Clone, Copy)]
pub enum Places {
    /// Forms 4 and 16: it reads this entry.
    Entry { entry: u64 },
    /// Form 48: it reads this word of the index, and none before it names the place.
    Index { place: u64, word: u64 },
    /// Form 48: none names the place; it reads the byte's word of the index.
    Own { place: u64 },
}

/// Where a new child comes into a cell.
#[derive(Clone, Copy)]
pub enum Room {
    /// Into the entry at this offset.
    Entry { offset: u64 },
    /// Into this place, and the byte's word of the index, which is this, gets it.
    Place { place: u64, index: u64 },
    Full,
}

impl Places {
    /// A look into a cell of this kind.
    pub(crate) fn of(kind: u64) -> Places
        ensures { result ≡ places_start kind }
    {
        if kind == FORM_48 {
            return Places::Index { place: 0, word: 0 };
        }
        Places::Entry { entry: 0 }
    }

    /// The offset of the word that it reads next.
    pub(crate) fn offset(self, kind: u64, byte: u64) -> u64
        requires places { IsPlaces kind self }
        requires byte { byte < 256 }
        ensures { result ≡ places_offset kind byte self }
    {
        match self {
            Places::Entry { entry } => first_entry(kind) + entry,
            Places::Index { word, .. } => FIRST + word,
            Places::Own { .. } => FIRST + byte / 8,
        }
    }

    /// What it is once it is told that word, or the room that it has found.
    pub(crate) fn told(self, kind: u64, got: u64) -> Turn<Places, Room>
        requires { IsPlaces kind self }
        ensures { result ≡ places_turned kind self got }
    {
        match self {
            Places::Entry { entry } => entry_turned(kind, entry, got),
            Places::Index { place, word } => index_turned(place, word, got),
            Places::Own { place } => Turn::Done(Room::Place { place, index: got }),
        }
    }
}

fn entry_turned(kind: u64, entry: u64, got: u64) -> Turn<Places, Room>
    requires { entry < entry_count kind }
    ensures { result ≡ entry_turned kind entry got }
{
    if got == 0 {
        let offset = first_entry(kind) + entry;
        return Turn::Done(Room::Entry { offset });
    }
    if entry + 1 < entry_count(kind) {
        return Turn::Go(Places::Entry { entry: entry + 1 });
    }
    Turn::Done(Room::Full)
}

/// A word of the index was read, which may name the place.
fn index_turned(place: u64, word: u64, got: u64) -> Turn<Places, Room>
    requires place { place < 48 }
    requires word { word < 32 }
    ensures { result ≡ index_turned place word got }
{
    let place_next = place + 1;
    if has_byte(got, place_next, 8) {
        if place_next < PLACE_COUNT {
            return Turn::Go(Places::Index {
                place: place_next,
                word: 0,
            });
        }
        return Turn::Done(Room::Full);
    }
    if word + 1 < INDEX_WORDS {
        return Turn::Go(Places::Index {
            place,
            word: word + 1,
        });
    }
    Turn::Go(Places::Own { place })
}

/// Whether one of the first so many bytes of a word is this one.
fn has_byte(word: u64, byte: u64, limit: u64) -> bool
    requires { limit ≤ 8 }
    ensures { result ≡ has_byte word byte limit }
{
    if limit == 0 {
        return false;
    }
    if byte_in(word, limit - 1) == byte {
        return true;
    }
    has_byte(word, byte, limit - 1)
}
