//! The updater's turn: it carries log lines to the search layer, and frees merged nodes.
//!
//! One party at a time makes a turn. It takes the updater lock by the exchange `take_turn`, which `TakeTurn` makes as a
//! machine of its own, and `Work` does the turn under the lock, which it gives back at its end. The action and the turn
//! of `Work` are inlined always, as those of calls are (crate `node_ops`).
#![tactic(auto)]

mod deciding;
pub mod laws;
mod making;
mod taking;
mod terms;
mod work;

pub use making::{MakeTurn, TurnReply};
pub use taking::{TakeTurn, Took, take_turn};
pub use terms::{Found, Tally, Terms, Turned};
pub use work::{Work, WorkAt};
