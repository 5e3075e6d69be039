//! The floor of a key in the search layer's radix tree, as a machine that reads a word at a time.
//!
//! It takes no lock. Beside a writer it ends and answers a node in range, whatever it is told; where nobody writes it
//! answers the node of the greatest key that is at most its own. It goes down by the bytes of its key and keeps *one
//! other reference*, to which it turns back once, where all keys below it turn out to be greater.
#![tactic(auto)]

mod floor;
pub mod laws;
mod scan;
mod words;

pub use floor::{Floor, FloorAt};
pub use scan::{BYTES, Scan, Scanned, entry_count, first_entry};
pub use words::{KEY_WORDS, ROOT, byte_of, is_prefix, is_same, key_with, word_of};
