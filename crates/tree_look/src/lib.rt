//! Looking for a key in the search layer's radix tree: where the key's way ends, and with that, which change of the
//! tree sets it or takes it out.
//!
//! The holder of the updater lock alone looks, so nobody writes meanwhile; the machine ends whatever it is told.
#![tactic(auto)]

mod find;
pub mod laws;
mod look;

pub use find::{Find, Findings};
pub use look::{Look, LookAt, Looked, Spot};
