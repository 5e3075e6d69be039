//! What `catalog` does: plays scripts of calls on a catalogue of names, and reports what each call was answered.
#![tactic(auto)]

mod commands;
mod files;
mod generated;
mod play;
mod reading;
mod run_file;
mod status;

pub use commands::catalog;
pub use crowd_rounds::{index_core, pac_index, recovery};
pub use status::{ImageRefusal, Status};
