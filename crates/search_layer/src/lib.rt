//! The search layer: which node to begin with in looking for a name.
//!
//! It is a finite map from keys to nodes (`layer_map`), kept in a radix tree of leaves and cells. A key is three words,
//! zero or those of a name, and names compare as their keys do. The `Floor` of `tree_floor` reads the tree beside
//! whoever changes it, and is exact where nobody does. The `Set` and `Unset` of `tree_update` change one key, by one
//! store of a reference or of a node word each; the holder of the updater lock alone runs them. Here stands what crates
//! above say of the layer's words and of these machines: no more than `specs/` says, so none of them knows of a leaf or
//! of a cell. The machines are passed on by name, with the `Change` that a set and an unset are made of; their specs
//! stand in their own crates.
//!
//! A stage of a change is its machine's state. A party beside the updater leaves the words of the layer and the marks,
//! and so what a stage knows.
#![tactic(auto)]

pub mod laws;

pub use tree_floor::Floor;
pub use tree_update::{Change, Ended, Set, Unset, floor_alone, set_alone, unset_alone};
