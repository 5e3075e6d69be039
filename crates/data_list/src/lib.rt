//! The list of nodes: the walk to the node in whose range a key lies, as a machine.
//!
//! The list begins with node 0. The range of a node goes from its anchor to that of the node that it leads to, so each
//! key lies in one node's range. A walk may begin at any node. While other parties split and merge nodes, what it loads
//! of a node stands only as long as that node's version word does, which it therefore loads first.
#![tactic(auto)]

pub mod laws;
mod target;
mod walk;

pub use target::{Next, Sighting, Target, Walked};
pub use walk::{Walk, WalkAt};
