//! The words of permutations, by hand.

ghost use Rattle.std.specs.Prelude.{◌≤◌};

use data_node::Order;
use permutation::permutation_of;

/// The first two words of the permutation that has these slots first.
fn packed(slots: [u8; 9], len: usize) -> [u64; 2]
    requires { len ≤ 9 }
{
    let mut all = [0; 64];
    for place in 0..9 {
        all[place] = slots[place];
    }
    let order = Order { slots: all, len };
    let words = permutation_of(&order);
    [words[0], words[1]]
}

#[test]
fn permutations_have_a_byte_for_each_place(rt: HostRuntime) {
    let falling = [8, 7, 6, 5, 4, 3, 2, 1, 63];
    assert!(rt; packed([2, 0, 1, 0, 0, 0, 0, 0, 0], 3) == [0x01_0002, 0]);
    assert!(rt; packed(falling, 9) == [0x0102_0304_0506_0708, 63]);
    assert!(rt; packed(falling, 0) == [0, 0]);
}
