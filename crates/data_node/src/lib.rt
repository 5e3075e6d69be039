//! A node: up to 64 slots, each of which holds a name with its number.
//!
//! A bitmap tells which slots are live. Beside it stands a fingerprint of each slot's name, one byte,
//! so that a look-up compares names only where the fingerprints agree.
#![tactic(auto)]

mod bits;
mod keys;
pub mod laws;
mod order;
mod slots;
mod split;

pub use bits::{lowest_live, with_live, without_live};
pub use keys::is_below;
pub use order::{Halves, Order, sort_order};
pub use slots::{
    MAX_SLOTS, PRINT_WORDS, candidates, clear_slot, is_live, live_count, print_at, print_in,
    with_print,
};
pub use split::halves;
