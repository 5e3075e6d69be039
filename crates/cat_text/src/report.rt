//! Reports: what each call of each round was answered.

use cat_history::{Items, Record};

/// What a round came to.
#[derive(Drop)]
pub struct RoundReport {
    /// The records by caller, each caller's in the order of its calls.
    pub records: Items<Record>,
    /// Whether a crash ended the round.
    pub crashed: bool,
    /// How many writes of the round have a place.
    pub writes: u64,
    /// How many names the map has at the end of the round.
    pub names: u64,
}

/// The rounds of a report, in order.
pub type Report = Items<RoundReport>;
