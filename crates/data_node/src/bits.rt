//! Bitmaps with one bit changed, and their lowest bit.

ghost use Rattle.std.specs.Prelude.{◌≡◌, ◌≢◌, ◌⊎◌, ◌<◌, ◌↔◌, ℕ};
ghost use Rattle.data_node.specs.Bits.{with_live, without_live, lowest_live};
ghost use Rattle.data_node.specs.Slots.{IsLive};

use crate::slots::MAX_SLOTS;

/// The bitmap in which this slot is live too.
#[tactic(auto, unfolding(crate::specs::Bits::with_live))]
pub fn with_live(bitmap: u64, slot: u64) -> u64
    requires { slot < MAX_SLOTS }
    ensures value { result ≡ with_live bitmap slot }
    ensures bits { (other : ℕ) → IsLive result other ↔ ((other ≡ slot) ⊎ IsLive bitmap other) }
{
    bitmap | 1 << slot
}

/// The bitmap in which this slot is clear.
#[tactic(auto, unfolding(crate::specs::Bits::without_live))]
pub fn without_live(bitmap: u64, slot: u64) -> u64
    requires { slot < MAX_SLOTS }
    ensures value { result ≡ without_live bitmap slot }
    ensures bits { (other : ℕ) → IsLive result other ↔ (IsLive bitmap other × (other ≢ slot)) }
{
    bitmap & !(1 << slot)
}

/// The lowest live slot, or None where no slot is live.
#[tactic(auto, unfolding(crate::specs::Bits::lowest_live))]
pub fn lowest_live(bitmap: u64) -> Option<u64>
    ensures { result ≡ lowest_live bitmap }
{
    if bitmap == 0 {
        None
    } else {
        Some(u64::from(bitmap.trailing_zeros()))
    }
}
