//! The two halves of a full node.

ghost use Rattle.std.specs.Prelude.{◌≡◌, ℕ, ◌/◌, ◌<◌, ◌≤◌, ◌↔◌, All, Contains, take, drop, slice_index};
ghost use Rattle.data_node.specs.Slots.{IsLive};
ghost use Rattle.data_node.specs.Orders.{listed};

use crate::bits::with_live;
use crate::order::{Halves, Order};
use crate::slots::MAX_SLOTS;

/// These slots as bits.
fn bits_of(slots: &[u8]) -> u64
    requires { All (λ slot. slot < MAX_SLOTS) slots.now }
    ensures { (slot : ℕ) → IsLive result slot ↔ Contains slots.now slot }
{
    let mut bits = 0;
    for slot in slots {
        bits = with_live(bits, u64::from(*slot));
    }
    bits
}

/// The lower and the upper half of an order of as many slots as a node has.
pub fn halves(order: &Order, slots: u64) -> Halves
    requires full { order.now.len ≡ slots }
    requires slots { (4 ≤ slots) × (slots ≤ MAX_SLOTS) }
    requires bits { All (λ slot. slot < MAX_SLOTS) (listed order.now) }
    ensures keep { (slot : ℕ) → IsLive result.keep slot ↔ Contains (take (slots / 2) (listed order.now)) slot }
    ensures moved { (slot : ℕ) → IsLive result.moved slot ↔ Contains (drop (slots / 2) (listed order.now)) slot }
    ensures first { result.first ≡ slice_index (listed order.now) (slots / 2) }
{
    let half = (slots / 2) as usize;
    let listed = &order.slots[..order.len];
    Halves {
        keep: bits_of(&listed[..half]),
        moved: bits_of(&listed[half..]),
        first: u64::from(listed[half]),
    }
}
