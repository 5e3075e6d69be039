//! Which name of the right node goes into which slot of the left one.

ghost use Rattle.std.specs.Prelude.{◌≡◌, ◌≤◌};
ghost use Rattle.split_merge.specs.Pairs.{pairs_of};

use data_node::{is_live, with_live, without_live};

/// A left node gets names in so many slots at most.
pub const MAX_JOINED: usize = 32;

/// No slot: nothing goes into this one.
pub(crate) const NO_SLOT: u8 = 64;

/// How the names of the right node go into the left one: by the left node's slots the slot of the right one, or 64; as
/// bits the slots that get a name; and the left node's bitmap with them.
#[derive(Clone, Copy)]
pub struct Pairs {
    pub from: [u8; MAX_JOINED],
    pub targets: u64,
    pub grown: u64,
}

/// Each clear slot of the left node's first half, in rising order, gets the next live slot of the right one, in rising
/// order, as long as there is one.
pub(crate) fn pairs_of(own: u64, right: u64, slots: u64) -> Pairs
    requires { slots ≤ 64 }
    ensures { result ≡ pairs_of own right slots }
{
    let mut from = [NO_SLOT; MAX_JOINED];
    let mut targets = 0;
    let mut grown = own;
    let mut rest = right;
    for slot in 0..slots / 2 {
        let source = u64::from(rest.trailing_zeros());
        if !is_live(own, slot) && source < slots {
            from[slot as usize] = source as u8;
            targets = with_live(targets, slot);
            grown = with_live(grown, slot);
            rest = without_live(rest, source);
        }
    }
    Pairs {
        from,
        targets,
        grown,
    }
}
