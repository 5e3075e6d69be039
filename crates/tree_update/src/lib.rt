//! Setting and unsetting a key of the search layer's radix tree, from the key's way to the last store that is durable.
//!
//! `Change` is one machine of the parts that find the end of the key's way, take, fill, count and finish. `Set` and
//! `Unset` are its two uses; the holder of the updater lock alone runs them. Its laws say what holds on a row of words
//! along a whole run, whatever becomes durable by itself meanwhile, and what a crash leaves at any time.
#![tactic(auto)]

mod alone;
mod change;
pub mod laws;
mod looking;
mod set;
mod setting;
mod unsetting;

pub use alone::{floor_alone, set_alone, unset_alone};
pub use change::{Change, ChangeAt, Ended, NewCell, Site};
pub use set::{Set, Unset};
