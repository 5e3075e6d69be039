//! The cells of a radix tree as words: their four forms, for 4, 16, 48 and 256 children, look-ups in them, and the
//! stores that change them. They are the inner nodes of the adaptive radix tree (Leis, Kemper, Neumann, ICDE 2013).
//!
//! A cell stands for the keys with a common prefix, which is its first bytes, as many as its depth; its children are
//! told apart by the next byte, the branch byte. A child is a reference, to a leaf or to another cell; 0 is none. Word
//! 0 of a cell is its depth, the words 1 to 3 are the prefix with zeros behind it.
//!
//! ```text
//! form   kind  words   children
//!    4      2      8   4 to 7: entries, each 0 or a branch byte from bit 32 on with a reference below it
//!   16      3     24   8 to 23: entries
//!   48      4     88   8 to 39: a byte for each branch byte, 0 or a place and one; 40 to 87: the references in places
//!  256      5    264   8 to 263: a reference for each branch byte
//! ```
//!
//! The words 4 to 7 of the larger forms are 0. A change of a cell in use is one store of one word, so whoever reads it
//! in between, or finds it after a crash, sees the children as they were before or as they are after. In form 48 a new
//! child takes two stores; the first one puts the reference into a place that no branch byte has, and changes no child.
#![tactic(auto)]

mod cell;
mod changes;
mod fill_cell;
mod fill_leaf;
mod filling;
mod key;
pub mod laws;
mod lookup;
mod making;

pub use cell::{
    Branch, CELL_WORDS, Cell, CellStore, ENTRY, INDEX_WORDS, PLACE_COUNT, byte_in, byte_set,
};
pub use changes::{Added, Removed, add, remove};
pub use fill_cell::FillCell;
pub use fill_leaf::FillLeaf;
pub use filling::Filling;
pub use key::{KEY_BYTES, Key, key_byte, prefix_of, shared_bytes};
pub use lookup::{below, child};
pub use making::{grown, larger, paired};
