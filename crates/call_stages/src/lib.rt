//! What a call in flight has of the index, and the kinds of step that lead from one such stage to the next.
//!
//! Machines and the law of the index meet here: a machine's crate shows that each of its steps is of one of these
//! kinds, and the law is proved for the kinds, whatever machine makes the step.
#![tactic(auto)]

mod once;
mod view;

pub use once::{Once, Placed};
pub use view::View;
