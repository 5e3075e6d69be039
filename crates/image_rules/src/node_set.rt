//! A set of nodes.

ghost use Rattle.std.specs.Prelude.{◌≡◌, ◌⊎◌, ℕ, ◌<◌, ◌↔◌, IsTrue};
ghost use Rattle.image_rules.specs.NodeSets.{HasNode};

use data_node::{is_live, with_live};
use pm_words::MOST_NODES;

/// How many nodes one word has a bit for.
const BITS: u64 = 64;

/// How many words have a bit for each node.
const SET_WORDS: usize = 64;

/// Some of an image's nodes, by a bit for each. It takes no memory.
#[derive(Drop)]
pub struct NodeSet {
    bits: [u64; SET_WORDS],
}

impl NodeSet {
    /// No node.
    pub fn new() -> NodeSet
        ensures { (node : ℕ) → HasNode result node → ⊥ }
    {
        NodeSet {
            bits: [0; SET_WORDS],
        }
    }

    /// Whether the node is among them.
    pub fn contains(&self, node: u64) -> bool
        ensures { IsTrue result ↔ HasNode self.now node }
    {
        match self.bits.get((node / BITS) as usize) {
            Some(word) => is_live(*word, node % BITS),
            None => false,
        }
    }

    /// The node is among them from now on.
    pub fn insert(&mut self, node: u64)
        requires { node < MOST_NODES }
        ensures { (other : ℕ) → HasNode self.new other ↔ ((other ≡ node) ⊎ HasNode self.old other) }
    {
        let word = &mut self.bits[(node / BITS) as usize];
        *word = with_live(*word, node % BITS);
    }
}
