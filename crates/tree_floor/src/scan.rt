//! One cell, as a floor reads it.

ghost use Rattle.std.specs.Prelude.{◌≡◌, ◌<◌, ◌≤◌, ◌^◌};
ghost use Rattle.tree_floor.specs.Scans.{scan_starts, scan_offset, scan_told, IsScan, top_byte, has_places};
ghost use Rattle.tree_floor.specs.Scans.{child_entry, better_entry, first_entry, entry_count, entry_told, index_told};
ghost use Rattle.tree_floor.specs.Scans.{down_told};

use pm_words::codes::reference::{FORM_4, FORM_16, FORM_48};
use pm_words::offsets::cell::{FIRST, FIRST_OF_4, PLACES};
use radix_nodes::{ENTRY, PLACE_COUNT, byte_in};

/// Reads of a cell the child under a byte, and the one under the greatest byte below that, a word at a time.
#[derive(Clone, Copy)]
pub enum Scan {
    /// Forms 4 and 16: the entry that it reads next; of those before the child's reference, and the best entry below; 0
    /// for none.
    Entry { entry: u64, child: u64, below: u64 },
    /// Form 48: the word of the index that it reads next, from the byte's downwards, and the child's place and one, or
    /// 0.
    Index { word: u64, place: u64 },
    /// Form 48: it reads the child's reference at its place and one, and then the one at the other.
    Child { place: u64, below: u64 },
    /// Form 48: it reads the reference below.
    Below { child: u64, place: u64 },
    /// Form 256: it reads the child's reference.
    Direct,
    /// Form 256: it reads the references below, downwards; the next one's byte and one.
    Down { next: u64, child: u64 },
}

/// What a scan has read.
#[derive(Clone, Copy)]
pub enum Scanned {
    More(Scan),
    /// The references, 0 where there is none.
    Found { child: u64, below: u64 },
}

/// How many branch bytes there are. As a byte it is past all of them.
pub const BYTES: u64 = 256;

/// The reference of no leaf and no cell: what was read is out of order.
const WRONG: u64 = 1;

impl Scan {
    /// The scan of a cell of this kind for this byte.
    pub(crate) fn of(kind: u64, byte: u64) -> Scan
        requires kind { (2 ≤ kind) × (kind ≤ 5) }
        ensures { result ≡ scan_starts kind byte }
    {
        match kind {
            FORM_4 | FORM_16 => Scan::Entry {
                entry: 0,
                child: 0,
                below: 0,
            },
            FORM_48 => Scan::Index {
                word: byte.min(BYTES - 1) / 8,
                place: 0,
            },
            _ if byte < BYTES => Scan::Direct,
            _ => Scan::Down {
                next: BYTES,
                child: 0,
            },
        }
    }

    /// The offset of the word that it reads next.
    pub(crate) fn offset(self, kind: u64, byte: u64) -> u64
        requires scan { IsScan kind byte self }
        requires byte { byte ≤ 256 }
        ensures { result ≡ scan_offset kind byte self }
    {
        match self {
            Scan::Entry { entry, .. } => first_entry(kind) + entry,
            Scan::Index { word, .. } => FIRST + word,
            Scan::Child { place, .. } | Scan::Below { place, .. } => PLACES - 1 + place,
            Scan::Direct => FIRST + byte,
            Scan::Down { next, .. } => 7 + next,
        }
    }

    /// What it is once it is told that word.
    #[inline(always)]
    pub(crate) fn told(self, kind: u64, byte: u64, got: u64) -> Scanned
        requires scan { IsScan kind byte self }
        requires byte { byte ≤ 256 }
        ensures { result ≡ scan_told kind byte self got }
    {
        match self {
            Scan::Entry {
                entry,
                child,
                below,
            } => entry_told(kind, byte, entry, child, below, got),
            Scan::Index { word, place } => index_told(byte, word, place, got),
            Scan::Child { below: 0, .. } => Scanned::Found {
                child: got,
                below: 0,
            },
            Scan::Child { below, .. } => Scanned::More(Scan::Below {
                child: got,
                place: below,
            }),
            Scan::Below { child, .. } => Scanned::Found { child, below: got },
            Scan::Direct if byte == 0 => Scanned::Found {
                child: got,
                below: 0,
            },
            Scan::Direct => Scanned::More(Scan::Down {
                next: byte,
                child: got,
            }),
            Scan::Down { next, child } => down_told(next, child, got),
        }
    }
}

/// An entry was read, behind so many.
fn entry_told(kind: u64, byte: u64, entry: u64, child: u64, below: u64, got: u64) -> Scanned
    requires { entry < entry_count kind }
    ensures { result ≡ entry_told kind byte entry child below got }
{
    let child = child_of(byte, child, got);
    let below = better_of(byte, below, got);
    if entry + 1 < entry_count(kind) {
        return Scanned::More(Scan::Entry {
            entry: entry + 1,
            child,
            below,
        });
    }
    Scanned::Found {
        child,
        below: below % ENTRY,
    }
}

/// A word of the index was read.
fn index_told(byte: u64, word: u64, place: u64, got: u64) -> Scanned
    requires word { word < 32 }
    requires byte { byte ≤ 256 }
    ensures { result ≡ index_told byte word place got }
{
    let here = byte / 8 == word;
    let place = if here { byte_in(got, byte % 8) } else { place };
    let limit = if here { byte % 8 } else { 8 };
    let below = top_byte(got, limit);
    if below == 0 && 0 < word {
        return Scanned::More(Scan::Index {
            word: word - 1,
            place,
        });
    }
    places(place, below)
}

/// A reference below was read.
fn down_told(next: u64, child: u64, got: u64) -> Scanned
    requires { 1 ≤ next }
    ensures { result ≡ down_told next child got }
{
    if got != 0 {
        return Scanned::Found { child, below: got };
    }
    if next == 1 {
        return Scanned::Found { child, below: 0 };
    }
    Scanned::More(Scan::Down {
        next: next - 1,
        child,
    })
}

/// The offset of a form's first entry.
pub fn first_entry(kind: u64) -> u64
    ensures { result ≡ first_entry kind }
{
    if kind == FORM_4 { FIRST_OF_4 } else { FIRST }
}

/// How many entries a form has.
pub fn entry_count(kind: u64) -> u64
    ensures { result ≡ entry_count kind }
{
    if kind == FORM_4 { 4 } else { 16 }
}

/// The child's reference, of those read and this entry.
pub(crate) fn child_of(byte: u64, child: u64, got: u64) -> u64
    ensures { result ≡ child_entry byte child got }
{
    if got != 0 && got / ENTRY == byte {
        got % ENTRY
    } else {
        child
    }
}

/// The better entry below the byte.
pub(crate) fn better_of(byte: u64, below: u64, got: u64) -> u64
    ensures { result ≡ better_entry byte below got }
{
    if got != 0 && got / ENTRY < byte && (below == 0 || below / ENTRY < got / ENTRY) {
        got
    } else {
        below
    }
}

/// Of the first so many bytes of a word the last one that isn't 0, or 0.
fn top_byte(word: u64, limit: u64) -> u64
    requires { limit ≤ 8 }
    ensures { result ≡ top_byte word limit }
{
    if limit == 0 {
        return 0;
    }
    let byte = byte_in(word, limit - 1);
    if byte == 0 {
        top_byte(word, limit - 1)
    } else {
        byte
    }
}

/// The places of the child and of the one below were read, each with one more, or 0.
fn places(place: u64, below: u64) -> Scanned
    ensures { result ≡ has_places place below }
{
    if place > PLACE_COUNT || below > PLACE_COUNT {
        return Scanned::Found {
            child: WRONG,
            below: WRONG,
        };
    }
    if place != 0 {
        return Scanned::More(Scan::Child { place, below });
    }
    if below != 0 {
        return Scanned::More(Scan::Below {
            child: 0,
            place: below,
        });
    }
    Scanned::Found { child: 0, below: 0 }
}
