//! What one try of a call comes to.

use call_stages::Once;
use epochs::Advance;
use updater::Turned;

/// What a try comes to.
#[derive(Drop)]
pub enum Tried<T> {
    Answered(Once<T>),
    /// The caller had no step left before one that the try still had to make.
    Cut,
}

/// What a try of a turn of the updater comes to.
#[derive(Clone, Copy)]
pub enum TriedTurn {
    /// It was made, with the stamp `epoch` for merged nodes, behind a try to advance the epoch that was answered
    /// `advanced`.
    Turned {
        turned: Turned,
        epoch: u64,
        advanced: Result<u64, Advance>,
    },
    /// Another party has the updater lock: this word was found there.
    Held {
        word: u64,
    },
    /// The caller had no step left before one that the turn still had to make.
    Cut,
}
