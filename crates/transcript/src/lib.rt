//! Says of the records of a round, whoever wrote them, whether they are those of a legal round, and else which rule
//! they break first.
#![tactic(auto)]

mod asking;
mod calls;
mod ends;
mod forms;
mod judging;
pub mod laws;
mod limit;
mod looks;
mod names;
mod order;
mod parts;
mod places;
mod scans;
mod spans;
mod stops;

pub use asking::{Asked, AskedCall, Judged, RoundEnd};
pub use judging::judge;
pub use std::alloc::AllocError as NoMemory;
