//! One cell, as a count of its children reads it.

ghost use Rattle.std.specs.Prelude.{◌≡◌, ◌<◌};
ghost use Rattle.tree_change.specs.Others.{slot_count, slot_offset, slot_value, slot_turned, slot_next, slots_end};
ghost use Rattle.tree_change.specs.Others.{others_starts, others_offset, others_turned, IsOthers};

use pm_words::Turn;
use pm_words::codes::reference::{FORM_4, FORM_16, FORM_48};
use pm_words::offsets::cell::{FIRST, PLACES};
use radix_nodes::{ENTRY, PLACE_COUNT, byte_in};
use tree_floor::{BYTES, entry_count, first_entry};

/// Looks in a cell for children beside the one under a byte, a word at a time.
#[derive(Clone, Copy)]
pub enum Others {
    /// It reads this slot: an entry, or what form 48 or 256 has for a branch byte. `one` is of another child that it
    /// has seen: the reference, or in form 48 the place, counted from 1; 0 for none.
    Slot { slot: u64, one: u64 },
    /// Form 48: it reads the reference in this place.
    Reference { place: u64 },
}

/// How many children a cell has beside the one under a byte.
#[derive(Clone, Copy)]
pub enum Counted {
    /// Two at least.
    Two,
    /// One, and its reference.
    One { reference: u64 },
    Absent,
}

impl Others {
    /// One that has yet to begin.
    pub(crate) fn new() -> Others
        ensures { result ≡ others_starts }
    {
        Others::Slot { slot: 0, one: 0 }
    }

    /// The offset of the word that it reads next.
    pub(crate) fn offset(self, kind: u64) -> u64
        requires { IsOthers kind self }
        ensures { result ≡ others_offset kind self }
    {
        match self {
            Others::Slot { slot, .. } => slot_offset(kind, slot),
            Others::Reference { place } => PLACES - 1 + place,
        }
    }

    /// What it is once it is told that word, or what it has counted.
    pub(crate) fn told(self, kind: u64, byte: u64, got: u64) -> Turn<Others, Counted>
        requires { IsOthers kind self }
        ensures { result ≡ others_turned kind byte self got }
    {
        match self {
            Others::Slot { slot, one } => {
                let value = slot_value(kind, byte, slot, got);
                slot_turned(kind, slot, one, value)
            }
            Others::Reference { .. } => Turn::Done(Counted::One { reference: got }),
        }
    }
}

fn slot_count(kind: u64) -> u64
    ensures { result ≡ slot_count kind }
{
    if kind == FORM_4 || kind == FORM_16 {
        return entry_count(kind);
    }
    BYTES
}

fn slot_offset(kind: u64, slot: u64) -> u64
    requires { slot < 256 }
    ensures { result ≡ slot_offset kind slot }
{
    if kind == FORM_48 {
        return FIRST + slot / 8;
    }
    first_entry(kind) + slot
}

/// What a slot has of another child than the one under the byte, or 0.
fn slot_value(kind: u64, byte: u64, slot: u64, got: u64) -> u64
    ensures { result ≡ slot_value kind byte slot got }
{
    if kind == FORM_4 || kind == FORM_16 {
        if got == 0 || got / ENTRY == byte {
            return 0;
        }
        return got % ENTRY;
    }
    if slot == byte {
        return 0;
    }
    if kind == FORM_48 {
        byte_in(got, slot % 8)
    } else {
        got
    }
}

/// A slot was read that has this of another child.
fn slot_turned(kind: u64, slot: u64, one: u64, value: u64) -> Turn<Others, Counted>
    requires { slot < 256 }
    ensures { result ≡ slot_turned kind slot one value }
{
    if value == 0 {
        return slot_next(kind, slot, one);
    }
    if one == 0 {
        return slot_next(kind, slot, value);
    }
    Turn::Done(Counted::Two)
}

/// It has read this slot, and this of one other child so far.
fn slot_next(kind: u64, slot: u64, one: u64) -> Turn<Others, Counted>
    requires { slot < 256 }
    ensures { result ≡ slot_next kind slot one }
{
    if slot + 1 < slot_count(kind) {
        return Turn::Go(Others::Slot {
            slot: slot + 1,
            one,
        });
    }
    slots_end(kind, one)
}

/// It has read all slots, and this of the one other child.
fn slots_end(kind: u64, one: u64) -> Turn<Others, Counted>
    ensures { result ≡ slots_end kind one }
{
    if one == 0 {
        return Turn::Done(Counted::Absent);
    }
    if kind != FORM_48 {
        return Turn::Done(Counted::One { reference: one });
    }
    if PLACE_COUNT < one {
        return Turn::Done(Counted::Absent);
    }
    Turn::Go(Others::Reference { place: one })
}
