//! The log lines of changes of structure, each call on one as a machine.
//!
//! A line is EMPTY, OPEN or READY. Each caller has eight. A line is told by its number, eight for each caller before
//! its own. What a line says is durable before its state says that it is so.
#![tactic(auto)]

pub mod laws;
mod line;
mod open;
mod read;
mod state;
mod take;

pub use line::Entry;
pub use open::{Open, OpenAt};
pub use read::{LineSeen, ReadLine};
pub use state::{Clear, Ready, ReadyAt};
pub use take::{Take, TakeAt, Taken};
