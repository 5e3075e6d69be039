//! Making a change of the search layer's radix tree, from where the key's way ends.
//!
//! The holder of the updater lock alone makes changes, so nobody else writes meanwhile. *Count* tells an unset whether
//! the cell of its leaf has one other child, or more. *FindRoom* finds where a new leaf comes into a cell. *Take* takes
//! a leaf or a cell that is free, to be filled. *ReadCell* reads a full cell, of which a larger one is made. *Finish*
//! makes the store by which the layer changes, and makes it durable before it ends: whatever a crash leaves has the
//! layer before the change, or the one after it.
#![tactic(auto)]

mod count;
mod find_room;
mod finish;
pub mod laws;
mod others;
mod read_cell;
mod room;
mod take;

pub use count::Count;
pub use find_room::FindRoom;
pub use finish::{Finish, FinishAt, Target, TargetStore};
pub use others::{Counted, Others};
pub use read_cell::ReadCell;
pub use room::{Places, Room};
pub use take::{Take, TakeAt, Taken};
