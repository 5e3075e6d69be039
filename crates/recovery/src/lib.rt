//! Opens the image of a catalogue as an index.
//!
//! An image that is sound by all rules, and of which there is a next generation, is recovered (`image_recovery`). Then
//! its volatile words are made to tell its list, and it is an index of which nobody has made a call yet. `recover` does
//! all of this; a `Recovery` makes one action at a time, and may be stopped by a crash. Where a fresh image is opened,
//! or that of an index at rest, only memory can be wanting (`open_fresh`, `reopen`).
#![tactic(auto)]

mod cores;
pub mod laws;
mod opening;
mod stopping;
mod telling;

pub use cores::{open_fresh, reopen};
pub use image_recovery::OpenFault;
pub use index_core;
pub use index_core::node_ops;
pub use opening::{recover, recover_sound};
pub use stopping::Recovery;
