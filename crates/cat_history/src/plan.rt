//! What is asked of a round.

use crate::items::Items;
use crate::op::CallerOp;

/// The calls of a round, in the order of the script.
pub type Ops = Items<CallerOp>;

/// How many events each caller may make, by its number.
pub type Budgets = Items<u64>;

/// How a crash ends a round.
#[derive(Drop)]
pub struct CrashPlan {
    /// It chooses the words that become durable on their own before the crash.
    pub seed: u64,
    pub budgets: Budgets,
    /// How many events the updater may make.
    pub updater_budget: u64,
}

/// What is asked of one round.
#[derive(Drop)]
pub struct RoundPlan {
    pub ops: Ops,
    /// After each so many calls the updater makes a turn; 0 asks for none.
    pub updater: u64,
    /// So many placed writes, and no put or delete begins to write any more.
    pub limit: u64,
    /// None where the callers are joined at the end of the round.
    pub crash: Option<CrashPlan>,
}
