//! One cell, as a look reads it.

ghost use Rattle.std.specs.Prelude.{◌≡◌, ◌<◌};
ghost use Rattle.tree_floor.specs.Scans.{entry_count};
ghost use Rattle.tree_look.specs.Finds.{find_starts, find_offset, find_told, entry_told, IsFind, has_place};

use pm_words::codes::reference::{FORM_4, FORM_16, FORM_48};
use pm_words::offsets::cell::{FIRST, PLACES};
use radix_nodes::{ENTRY, PLACE_COUNT, byte_in};
use tree_floor::{entry_count, first_entry};

/// Looks in a cell for the child under a byte, a word at a time.
#[derive(Clone, Copy)]
pub enum Find {
    /// Forms 4 and 16: the entry that it reads next.
    Entry { entry: u64 },
    /// Form 48: it reads the word of the index, and then the reference in the place that this has, counted from 1.
    Index,
    Reference { place: u64 },
    /// Form 256: it reads the reference.
    Direct,
}

/// What it has found.
#[derive(Clone, Copy)]
pub enum Findings {
    More(Find),
    /// The child's reference, the offset of its word, and what that word has above the reference.
    Found {
        offset: u64,
        high: u64,
        reference: u64,
    },
    Absent,
}

impl Find {
    /// A look into a cell of this kind.
    pub(crate) fn of(kind: u64) -> Find
        ensures { result ≡ find_starts kind }
    {
        if kind == FORM_4 || kind == FORM_16 {
            return Find::Entry { entry: 0 };
        }
        if kind == FORM_48 {
            Find::Index
        } else {
            Find::Direct
        }
    }

    /// The offset of the word that it reads next.
    pub(crate) fn offset(self, kind: u64, byte: u64) -> u64
        requires find { IsFind kind self }
        requires byte { byte < 256 }
        ensures { result ≡ find_offset kind byte self }
    {
        match self {
            Find::Entry { entry } => first_entry(kind) + entry,
            Find::Index => FIRST + byte / 8,
            Find::Reference { place } => PLACES - 1 + place,
            Find::Direct => FIRST + byte,
        }
    }

    /// What it is once it is told that word.
    pub(crate) fn told(self, kind: u64, byte: u64, got: u64) -> Findings
        requires find { IsFind kind self }
        requires byte { byte < 256 }
        ensures { result ≡ find_told kind byte self got }
    {
        match self {
            Find::Entry { entry } => entry_told(kind, byte, entry, got),
            Find::Index => has_place(byte_in(got, byte % 8)),
            Find::Reference { place } => Findings::Found {
                offset: PLACES - 1 + place,
                high: 0,
                reference: got,
            },
            Find::Direct => {
                if got == 0 {
                    return Findings::Absent;
                }
                Findings::Found {
                    offset: FIRST + byte,
                    high: 0,
                    reference: got,
                }
            }
        }
    }
}

/// An entry was read, behind so many.
fn entry_told(kind: u64, byte: u64, entry: u64, got: u64) -> Findings
    requires entry { entry < entry_count kind }
    requires byte { byte < 256 }
    ensures { result ≡ entry_told kind byte entry got }
{
    if got != 0 && got / ENTRY == byte {
        return Findings::Found {
            offset: first_entry(kind) + entry,
            high: byte * ENTRY,
            reference: got % ENTRY,
        };
    }
    if entry + 1 < entry_count(kind) {
        return Findings::More(Find::Entry { entry: entry + 1 });
    }
    Findings::Absent
}

/// The byte's place and one was read from the index.
fn has_place(place: u64) -> Findings
    ensures { result ≡ has_place place }
{
    if place == 0 || PLACE_COUNT < place {
        return Findings::Absent;
    }
    Findings::More(Find::Reference { place })
}
