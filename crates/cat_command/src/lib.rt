//! The forms of the command line.
#![tactic(auto)]

mod command;
mod read;

pub use command::Command;
pub use read::read_command;
