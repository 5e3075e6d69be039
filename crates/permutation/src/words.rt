//! The words of a permutation.

ghost use Rattle.std.specs.Prelude.{◌≡◌, ◌<◌, ◌≤◌, slice_index};
ghost use Rattle.data_node.specs.Orders.{listed};
ghost use Rattle.permutation.specs.Permutations.{first_slots, permutation_words, slot_at};

use data_node::{MAX_SLOTS, Order, with_print};

/// How many words a permutation has.
pub const PERMUTATION_WORDS: usize = 8;

/// How many places share a word, a byte each.
const PLACES_PER_WORD: u64 = 8;

/// The slot at a place, of the 64 that there are.
pub fn slot_at(words: &[u64; PERMUTATION_WORDS], place: u64) -> u8
    requires { place < 64 }
    ensures { result ≡ slot_at (slice_index words.now) place }
{
    words[(place / PLACES_PER_WORD) as usize].to_le_bytes()[(place % PLACES_PER_WORD) as usize]
}

/// The slots at the first so many places, as an order.
pub fn order_of(words: &[u64; PERMUTATION_WORDS], len: u64) -> Order
    requires { len ≤ 64 }
    ensures listed { listed result ≡ first_slots (slice_index words.now) len }
    ensures len { result.len ≤ len }
{
    let mut order = Order {
        slots: [0; MAX_SLOTS as usize],
        len: 0,
    };
    for place in 0..len {
        order.slots[order.len] = slot_at(words, place);
        order.len += 1;
    }
    order
}

/// The words of the permutation that has these slots at its first places.
pub fn permutation_of(order: &Order) -> [u64; PERMUTATION_WORDS]
    requires { order.now.len ≤ 64 }
    ensures first { first_slots (slice_index result) order.now.len ≡ listed order.now }
    ensures exact { result ≡ permutation_words (listed order.now) }
{
    let mut words = [0; PERMUTATION_WORDS];
    for place in 0..order.len as u64 {
        let word = (place / PLACES_PER_WORD) as usize;
        words[word] = with_print(words[word], place, order.slots[place as usize]);
    }
    words
}
