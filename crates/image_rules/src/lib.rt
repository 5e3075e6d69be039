//! What a sound image of the index is, which map it keeps, and the program that finds where an image is not sound.
//!
//! An image is sound where it breaks none of the rules of `specs/Rules`: on its header, on the list that its nodes
//! make, on each listed node, and on each line of the log.
#![tactic(auto)]

mod broken;
mod header;
pub mod laws;
mod list;
mod listed;
mod log_line;
mod map;
mod node;
mod node_set;
pub mod read;

pub use broken::{Broken, first_broken};
pub use list::listed_nodes;
pub use map::{is_found, number_in};
pub use node_set::NodeSet;
