//! The words of a catalogue in simulated persistent memory: which word stands at which address, what one action does to
//! the rows of words, and what a crash leaves of them.
#![tactic(auto)]

mod action;
mod again;
mod bytes;
pub mod codes;
mod fence;
mod image;
pub mod laws;
mod layout;
mod machine;
mod memory;
pub mod offsets;
mod steps;

pub use action::Action;
pub use again::Again;
pub use bytes::ImageFault;
pub use fence::{Fence, FenceAt, line_of};
pub use image::Image;
pub use layout::{Field, Layout, LayoutFault, kind_words};
pub use machine::{Machine, Turn};
pub use memory::Memory;
pub use steps::Steps;

/// There was no memory. It is the one error of a call that can fail by nothing else.
pub use std::alloc::AllocError as NoMemory;

/// The words of a name or a key.
pub const KEY: usize = 3;

/// The words of a slot: those of a name, and its value.
pub const SLOT_WORDS: u64 = KEY as u64 + 1;

/// The words of a line, which is flushed as one.
pub const LINE_WORDS: u64 = 8;

/// The log lines of one caller.
pub const LOG_LINES: u64 = 8;

/// The most nodes that a layout has.
pub const MOST_NODES: u64 = 4096;

/// The most writes that a catalogue ever places.
pub const MOST_WRITES: u64 = 1 << 62;
