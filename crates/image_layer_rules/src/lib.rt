//! What a sound image of the index is by all of its twelve rules, and the program that finds where an image is not
//! sound.
//!
//! `image_rules` has the rules on the header, the list, the nodes and the log. Those on the search layer stand here, in
//! `specs/Rules`, each by what breaks it: the tree of leaves and cells is in order (rule 10), it has no more keys than
//! there are nodes (rule 11), and each key that no line of the log exempts leads exactly where the list has it (rule
//! 12). The check of the first one needs no memory: it goes from a cell to its children only once their first bytes and
//! their depths are as they have to be, so it comes to no leaf and to no cell by two ways.
#![tactic(auto)]

mod broken;
mod cell;
mod children;
mod count;
mod cover;
mod form;
mod heads;
mod key;
pub mod laws;
mod leaf;
mod line;
mod look;
mod stray;
mod walk;
mod words;

pub use broken::{first_broken_of_all, has_many_keys, has_wrong_tree};
pub use key::{is_key, is_same};
pub use line::is_open_for;
