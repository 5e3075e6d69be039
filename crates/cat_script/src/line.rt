//! What a line of a script asks, and what may be wrong with it.

use cat_history::{CrashPlan, Op};

/// What a line asks.
#[derive(Drop)]
pub enum Line {
    /// Nothing: it has no word, or it is a comment.
    Blank,
    /// The next call of a caller.
    Call { caller: u64, op: Op },
    /// The end of the round, at which the callers are joined.
    Join,
    /// The end of the round by a crash.
    Crash { plan: CrashPlan },
    /// A turn of the updater after each so many calls, from this round on.
    Updater { turns: u64 },
    /// No more writes than this, from this round on.
    Limit { limit: u64 },
}

/// Why a line is none of a script. Where a line has several reasons, the first of them in this order is told.
#[derive(Clone, Copy, Debug, PartialEq, Eq)]
pub enum Reason {
    /// It has a byte that is no tab and not from 0x20 to 0x7E.
    Byte,
    /// It has no word that says what it asks.
    Verb,
    /// It has too few words for what it asks, or too many.
    Words,
    /// The first word of a call is no number below 16.
    Caller,
    /// The third word of a call is no name.
    Name,
    /// Another word is no number, or one past its limit.
    Number,
}

/// Why a line could not be read.
#[derive(Clone, Copy)]
pub enum LineFault {
    /// It is none of a script.
    Faulty(Reason),
    /// There was no memory for its budgets.
    NoMemory,
}
