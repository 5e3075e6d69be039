//! Changes of structure: the split of a full node, and the merge of two that have few names.
#![tactic(auto)]

mod joining;
pub mod laws;
mod merging;
mod moving;
mod pairing;
mod planning;
mod splitting;
mod uniting;

pub use joining::{Join, JoinAt};
pub use merging::{Merge, MergeAt, Merged, Near};
pub use moving::{Move, MoveAt};
pub use pairing::Pairs;
pub use planning::{MAX_MOVED, NODE_WORDS, Plan};
pub use splitting::{Share, Split, SplitAt, SplitDone};
pub use uniting::{HEAD, OWN_PRINTS, Union};
