//! Bitmaps of live slots, and the words with the slots' fingerprints.

ghost use Rattle.std.specs.Prelude.{◌≡◌, ◌≢◌, ◌⊎◌, ℕ, ◌%◌, ◌<◌, ◌≤◌, ◌↔◌, IsTrue, IsFalse, IsNone, Some, IfSome};
ghost use Rattle.std.specs.Prelude.{slice_index, slice_set};
ghost use Rattle.std.specs.Int.{bit_at};
ghost use Rattle.data_node.specs.Bits.{lowest_clear, printed, candidate_bits, live_count};
ghost use Rattle.data_node.specs.Slots.{AreAllLive, IsLive, IsLowestClear, IsCandidate, prints_of, print_of};

use crate::bits::{with_live, without_live};

/// A node has at most so many slots, as many as a bitmap has bits.
pub const MAX_SLOTS: u64 = 64;

/// How many slots have their fingerprints in one word, a byte each.
pub(crate) const PRINTS_PER_WORD: u64 = 8;

/// How many words hold the fingerprints of all slots.
pub const PRINT_WORDS: usize = 8;

/// The lowest bit of each byte of a word.
const LOWEST_BITS: u64 = 0x0101_0101_0101_0101;

/// The highest bit of each byte of a word.
const HIGHEST_BITS: u64 = 0x8080_8080_8080_8080;

/// Whether the slot is live.
pub fn is_live(bitmap: u64, slot: u64) -> bool
    requires { slot < MAX_SLOTS }
    ensures { IsTrue result ↔ IsLive bitmap slot }
{
    (bitmap >> slot) & 1 == 1
}

/// How many of the first `slots` are live.
pub fn live_count(bitmap: u64, slots: u64) -> u64
    requires { slots ≤ MAX_SLOTS }
    ensures count { result ≡ live_count slots bitmap }
    ensures most { result ≤ slots }
{
    let mut count = 0;
    for place in 0..slots {
        if is_live(bitmap, place) {
            count += 1;
        }
    }
    count
}

/// The bitmap in which `to` is live, and `from`, if any, no longer is.
pub(crate) fn moved(bitmap: u64, from: Option<u64>, to: u64) -> u64
    requires within { to < MAX_SLOTS }
    requires from_within { IfSome from (λ slot. (slot < MAX_SLOTS) × (slot ≢ to)) }
    ensures { (slot : ℕ) → IsLive result slot ↔ ((slot ≡ to) ⊎ (IsLive bitmap slot × (from ≢ Some slot))) }
{
    let with_to = with_live(bitmap, to);
    match from {
        Some(slot) => without_live(with_to, slot),
        None => with_to,
    }
}

/// The lowest clear slot of the first `slots`, or None where they are all live.
#[tactic(auto, unfolding(crate::specs::Bits::lowest_clear))]
pub fn clear_slot(bitmap: u64, slots: u64) -> Option<u64>
    requires { slots ≤ MAX_SLOTS }
    ensures full { IsNone result ↔ AreAllLive bitmap slots }
    ensures lowest { IfSome result (IsLowestClear bitmap slots) }
    ensures value { result ≡ lowest_clear bitmap slots }
{
    let slot = u64::from(bitmap.trailing_ones());
    if slot < slots { Some(slot) } else { None }
}

/// The fingerprint of a slot.
pub fn print_in(prints: &[u64; PRINT_WORDS], slot: u64) -> u8
    requires { slot < MAX_SLOTS }
    ensures { result ≡ print_of prints.now slot }
{
    print_at(prints[(slot / PRINTS_PER_WORD) as usize], slot)
}

/// The fingerprint of a slot, in the word in which it stands.
pub fn print_at(word: u64, slot: u64) -> u8
    ensures { result ≡ slice_index (prints_of word) (slot % 8) }
{
    word.to_le_bytes()[(slot % PRINTS_PER_WORD) as usize]
}

/// The word in which the slot's fingerprint stands, with that fingerprint changed and no other.
#[tactic(auto, unfolding(crate::specs::Bits::printed))]
pub fn with_print(word: u64, slot: u64, print: u8) -> u64
    ensures prints { prints_of result ≡ slice_set (prints_of word) (slot % 8) print }
    ensures value { result ≡ printed word slot print }
{
    let mut bytes = word.to_le_bytes();
    bytes[(slot % PRINTS_PER_WORD) as usize] = print;
    u64::from_le_bytes(bytes)
}

/// Whether the slot is live and has this fingerprint.
fn has_print(bitmap: u64, prints: &[u64; PRINT_WORDS], print: u8, slot: u64) -> bool
    requires { slot < MAX_SLOTS }
    ensures { IsTrue result ↔ IsLive bitmap slot × (print_of prints.now slot ≡ print) }
{
    is_live(bitmap, slot) && print_in(prints, slot) == print
}

/// Whether one of the word's slots has this fingerprint.
fn has_print_among(word: u64, print: u8) -> bool
    ensures { IsFalse result → (slot : ℕ) → slice_index (prints_of word) (slot % 8) ≢ print }
{
    // A byte of this is zero where the fingerprint is `print`. The lowest such byte borrows when one is subtracted from
    // each, and so its highest bit turns from clear to set.
    let differing = word ^ (LOWEST_BITS * u64::from(print));
    differing.wrapping_sub(LOWEST_BITS) & !differing & HIGHEST_BITS != 0
}

/// The candidates among the first `end` slots, where `found` are those among the first `start`.
fn candidates_from(
    bitmap: u64,
    prints: &[u64; PRINT_WORDS],
    print: u8,
    found: u64,
    start: u64,
    end: u64,
) -> u64
    requires order { start ≤ end }
    requires within { end ≤ MAX_SLOTS }
    requires so_far { (slot : ℕ) → (bit_at found slot ≡ 1) ↔ IsCandidate bitmap prints.now print start slot }
    ensures { (slot : ℕ) → (bit_at result slot ≡ 1) ↔ IsCandidate bitmap prints.now print end slot }
{
    let mut found = found;
    for slot in start..end {
        if has_print(bitmap, prints, print, slot) {
            found |= 1 << slot;
        }
    }
    found
}

/// The live slots, of the first `slots`, whose fingerprint is `print`, as bits. Only these can have
/// a name with that fingerprint.
pub fn candidates(bitmap: u64, prints: &[u64; PRINT_WORDS], print: u8, slots: u64) -> u64
    requires { slots ≤ MAX_SLOTS }
    ensures bits { (slot : ℕ) → (bit_at result slot ≡ 1) ↔ IsCandidate bitmap prints.now print slots slot }
    ensures value { result ≡ candidate_bits bitmap prints.now print slots }
{
    let mut found = 0;
    for place in 0..slots.div_ceil(PRINTS_PER_WORD) {
        // Most words have no such fingerprint, so that their slots needn't be looked at.
        if has_print_among(prints[place as usize], print) {
            let start = place * PRINTS_PER_WORD;
            let end = slots.min(start + PRINTS_PER_WORD);
            found = candidates_from(bitmap, prints, print, found, start, end);
        }
    }
    found
}
