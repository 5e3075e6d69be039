//! Nodes that are not in use: the claim of a free one, the end of a merged one, and its way back, as machines; and the
//! one store of that end, for who ends a node among other actions.
#![tactic(auto)]

mod claim;
mod gone;
pub mod laws;

pub use claim::{Claim, ClaimAt, Claimed};
pub use gone::{Release, ReleaseAt, Retire, retire_node};
