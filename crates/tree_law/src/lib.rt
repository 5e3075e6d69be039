//! The search layer as a radix tree of leaves and cells: its law, on plain data and on words. The forms of cells are
//! those of `radix_nodes`; the machines that walk on this tree and change it are those of the crates above.
//!
//! A *leaf* leads its key to a node. A *cell*, the inner node of the tree, has at least two children, leaves or cells,
//! each under a branch byte; all keys below it begin with its *prefix*, as many bytes as its *depth* says. The tree is
//! the map of the leaves that are reached from its root (`layer_in`). Each change of that map is one store of one word,
//! the *switch store*, before which a new leaf or cell is filled where nothing reaches it; so every mix of old and new
//! words that a crash may leave is the tree before or the tree after.
#![tactic(auto)]

pub mod laws;
