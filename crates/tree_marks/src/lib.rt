//! The marks of a row whose image was opened: one walk over the tree sets the mark of each leaf and cell that the root
//! leads to.
//!
//! What a change had filled when it was cut off isn't reached, so it gets no mark and is free again.
#![tactic(auto)]

pub mod laws;
mod walk;
mod words;

pub use walk::mark_tree;
