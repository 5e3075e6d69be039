//! What a split is to do, made of the words of the full node.

ghost use Rattle.std.specs.Prelude.{◌≡◌, ◌*◌, ◌<◌, ◌≤◌, [], ◌∷◌};
ghost use Rattle.pm_words.specs.Offsets.{slot_offset};
ghost use Rattle.data_node.specs.Orders.{listed};
ghost use Rattle.data_node.specs.Spots.{name_words};
ghost use Rattle.split_merge.specs.Plans.{spot_of, entries_of, order_of, moved_of, anchor_of};

use crate::splitting::Share;
use cat_key::Name;
use data_node::{Order, print_at, sort_order};
use pm_words::codes::kind::SPLIT;
use pm_words::offsets::node;
use pm_words::{KEY, LINE_WORDS, Layout};
use smo_log::Entry;

/// The words of the largest node.
pub const NODE_WORDS: usize = 272;

/// The most names that move.
pub const MAX_MOVED: usize = 32;

/// The words of the name `!`, which stand in a plan where those that were loaded are no name's.
const SOME_NAME: [u64; KEY] = [0x21 << 56, 0, 0];

/// What a split does: the full node with its locked word, the line and the fresh node that it has, the words of the
/// full node by offset, the slots of the names that move, in rising order of names, the words of the fresh node's
/// anchor, and the bitmap that the full node keeps.
#[derive(Clone, Copy)]
pub struct Plan {
    pub layout: Layout,
    pub node: u64,
    pub locked: u64,
    pub share: Share,
    pub full: [u64; NODE_WORDS],
    pub moved: [u8; MAX_MOVED],
    pub anchor: [u64; KEY],
    pub keep: u64,
}

impl Plan {
    ghost use Rattle.std.specs.Prelude.{◌≡◌, ◌+◌, ◌*◌, ◌/◌, ◌%◌, ◌<◌, ◌≤◌, slice_index};
    ghost use Rattle.std.specs.Int.{w64, from_le_bytes};
    ghost use Rattle.split_merge.specs.Plans.{IsPlan, source_in, eight_prints, plan_print, plan_word, next_in};
    ghost use Rattle.split_merge.specs.Plans.{entry_in};

    /// The fingerprint of a slot of the fresh node; 0 where no name is.
    #[tactic(auto, unfolding(crate::specs::Plans::plan_print))]
    fn print(&self, slot: u64) -> u8
        requires { IsPlan self.now }
        ensures { result ≡ plan_print self.now slot }
    {
        if slot < self.layout.slots() / 2 {
            let source = u64::from(self.moved[slot as usize]);
            print_at(self.full[(node::PRINTS + source / 8) as usize], source)
        } else {
            0
        }
    }

    /// The fingerprints of eight slots from this one on, as a word.
    fn prints(&self, first: u64) -> u64
        requires plan { IsPlan self.now }
        requires first { first < 64 }
        ensures { result ≡ from_le_bytes w64 (eight_prints self.now first) }
    {
        u64::from_le_bytes([
            self.print(first),
            self.print(first + 1),
            self.print(first + 2),
            self.print(first + 3),
            self.print(first + 4),
            self.print(first + 5),
            self.print(first + 6),
            self.print(first + 7),
        ])
    }

    /// The word of a slot of the fresh node, counted from the first.
    fn slot_word(&self, word: u64) -> u64
        requires plan { IsPlan self.now }
        requires word { word < 128 }
        ensures { result ≡ slice_index self.now.full (slot_offset (source_in self.now (word / 4)) (word % 4)) }
    {
        let source = u64::from(self.moved[(word / 4) as usize]);
        self.full[(node::SLOTS + 4 * source + word % 4) as usize]
    }

    /// The word that the fresh node is to have at this offset.
    #[tactic(auto, unfolding(crate::specs::Plans::plan_word))]
    pub(crate) fn word(&self, offset: u64) -> u64
        requires plan { IsPlan self.now }
        requires offset { offset < 144 }
        ensures { result ≡ plan_word self.now offset }
    {
        if offset <= node::BITMAP {
            (1 << (self.layout.slots() / 2)) - 1
        } else if offset == node::NEXT {
            self.full[node::NEXT as usize]
        } else if offset < node::ANCHOR + KEY as u64 {
            self.anchor[(offset - node::ANCHOR) as usize]
        } else if offset < node::SLOTS {
            self.prints(8 * (offset % LINE_WORDS))
        } else {
            self.slot_word(offset - node::SLOTS)
        }
    }

    /// The node behind the fresh one; 0 is none.
    pub(crate) fn next(&self) -> u64
        requires { IsPlan self.now }
        ensures { result ≡ next_in self.now }
    {
        self.word(node::NEXT)
    }

    /// What the line is to say.
    pub(crate) fn entry(&self) -> Entry
        requires { IsPlan self.now }
        ensures { result ≡ entry_in self.now }
    {
        Entry {
            kind: SPLIT,
            node: self.share.fresh,
            anchor: [
                self.word(node::ANCHOR),
                self.word(node::ANCHOR + 1),
                self.word(node::ANCHOR + 2),
            ],
            left: self.node,
        }
    }
}

/// The words of each slot.
fn entries_in(full: &[u64; NODE_WORDS]) -> [[u64; 4]; 64]
    ensures { result ≡ entries_of full.now }
{
    let mut entries = [[0; 4]; 64];
    for slot in 0..64 {
        let first = 16 + 4 * slot;
        entries[slot] = [
            full[first],
            full[first + 1],
            full[first + 2],
            full[first + 3],
        ];
    }
    entries
}

/// The slots of a full node in rising order of their names.
pub(crate) fn order_in(full: &[u64; NODE_WORDS], slots: u64) -> Order
    requires { slots ≤ 64 }
    ensures len { result.len ≡ slots }
    ensures listed { listed result ≡ order_of full.now slots }
{
    sort_order(&entries_in(full), u64::MAX, slots)
}

/// The slots of the upper half of an order.
pub(crate) fn upper_in(order: &Order, half: usize) -> [u8; MAX_MOVED]
    requires len { order.now.len ≡ 2 * half }
    requires half { half ≤ 32 }
    ensures { result ≡ moved_of (listed order.now) half }
{
    let mut moved = [0; MAX_MOVED];
    for slot in 0..MAX_MOVED {
        moved[slot] = if slot < half {
            order.slots[half + slot]
        } else {
            0
        };
    }
    moved
}

/// The words of a name; those of `!` where they are no name's.
pub(crate) fn name_or_some(first: u64, second: u64, third: u64) -> [u64; KEY]
    ensures { result ≡ anchor_of (first ∷ second ∷ third ∷ []) }
{
    let words = [first, second, third];
    match Name::of_words(words) {
        Some(_) => words,
        None => SOME_NAME,
    }
}

/// The words of the name in a slot; those of `!` where they are no name's.
pub(crate) fn anchor_in(full: &[u64; NODE_WORDS], slot: u64) -> [u64; KEY]
    requires { slot < 64 }
    ensures { result ≡ anchor_of (name_words (spot_of full.now) slot) }
{
    let first = (node::SLOTS + 4 * slot) as usize;
    name_or_some(full[first], full[first + 1], full[first + 2])
}
