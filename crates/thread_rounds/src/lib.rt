//! Rounds of several callers: each caller's calls in a thread of its own, all at once on one index, with the updater's
//! turns beside them, and joined at the end, or each within a budget of steps up to a crash.
#![tactic(auto)]

mod answering;
mod counting;
mod round;
mod worker;

pub use cat_history::{Budgets, CallerOp, CrashPlan, Ops, RoundPlan};
pub use pac_index;
pub use pac_index::index_core;
pub use round::{Finish, Round, run_round};
