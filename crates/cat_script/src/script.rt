//! Scripts: what is asked, round by round, and which lines ask something of a layout.

use cat_history::{Items, RoundPlan};

/// What a line asks of the layout that its script is played on.
#[derive(Clone, Copy)]
pub enum Need {
    /// A caller of this number.
    Caller { number: u64 },
    /// As many callers as the line has budgets.
    Budgets { count: u64 },
    Nothing,
}

/// A line that isn't blank.
#[derive(Clone, Copy)]
pub struct ScriptLine {
    /// Its number, counted from 1, blank lines among those counted.
    pub number: u64,
    pub need: Need,
}

/// What a text asks.
#[derive(Drop)]
pub struct Script {
    pub rounds: Items<RoundPlan>,
    /// The lines that ask something, in their order.
    pub lines: Items<ScriptLine>,
}
