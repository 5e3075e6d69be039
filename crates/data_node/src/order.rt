//! The live slots of a node in the order of their names.

ghost use Rattle.std.specs.Prelude.{◌≡◌, ◌≤◌};
ghost use Rattle.std.specs.List.Sorted.{IsPermutation, IsSortedBy};
ghost use Rattle.data_node.specs.Orders.{live_slots, listed, words_in, comes_before};

use crate::slots::{MAX_SLOTS, is_live};
use cat_key::WORDS;

/// How many words stand in a slot: those of a name, and its value.
const SLOT_WORDS: usize = WORDS + 1;

/// Some slots of a node, one behind the other: the first `len` of `slots`.
#[derive(Clone, Copy, Debug, PartialEq, Eq)]
pub struct Order {
    pub slots: [u8; MAX_SLOTS as usize],
    pub len: usize,
}

/// The two halves of a full node.
#[derive(Clone, Copy, Debug, PartialEq, Eq)]
pub struct Halves {
    /// The slots of the lower names, as bits.
    pub keep: u64,
    /// The slots of the others, as bits.
    pub moved: u64,
    /// The slot of the least name that moves.
    pub first: u64,
}

/// The live slots of the first `slots`, in rising order of their numbers.
fn live_order(bitmap: u64, slots: u64) -> Order
    requires { slots ≤ MAX_SLOTS }
    ensures listed { listed result ≡ live_slots bitmap slots }
    ensures len { result.len ≤ slots }
{
    let mut order = Order {
        slots: [0; MAX_SLOTS as usize],
        len: 0,
    };
    for slot in 0..slots {
        if is_live(bitmap, slot) {
            order.slots[order.len] = slot as u8;
            order.len += 1;
        }
    }
    order
}

/// The words of the name in a slot.
fn words_in(entries: &[[u64; SLOT_WORDS]; MAX_SLOTS as usize], slot: u8) -> [u64; WORDS]
    ensures { result ≡ words_in entries.now slot }
{
    match entries.get(usize::from(slot)) {
        Some(entry) => [entry[0], entry[1], entry[2]],
        None => [0; WORDS],
    }
}

/// Puts slots in rising order of names.
fn sort_slots(entries: &[[u64; SLOT_WORDS]; MAX_SLOTS as usize], slots: &mut [u8])
    ensures same { IsPermutation slots.old slots.new }
    ensures rising { IsSortedBy (comes_before entries.now) slots.new }
{
    slots.sort_unstable_by_key(|slot| (words_in(entries, *slot), *slot));
}

/// The live slots of the first `slots` in rising order of names, where `entries` has the words of each slot; slots of
/// one name in rising order.
pub fn sort_order(entries: &[[u64; 4]; 64], bitmap: u64, slots: u64) -> Order
    requires { slots ≤ MAX_SLOTS }
    ensures len { result.len ≤ slots }
    ensures live { IsPermutation (live_slots bitmap slots) (listed result) }
    ensures rising { IsSortedBy (comes_before entries.now) (listed result) }
{
    let Order {
        slots: mut order,
        len,
    } = live_order(bitmap, slots);
    sort_slots(entries, &mut order[..len]);
    Order { slots: order, len }
}
