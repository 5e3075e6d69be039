//! An index whose words threads share: callers make calls on it, each in a thread of its own. A single try waits for
//! no other caller; a whole call is tried again until it takes place.
//!
//! `Shared::new` takes a core apart into the table of its words and a caller for each party, and `Shared::close` puts
//! them together again. Between the two each step of a call is one atomic action on one word, and the table keeps the
//! very law that the core keeps: its words, the calls in flight and what callers have seen are at each moment an index
//! of the core.
//!
//! A single try takes a pin on the epoch before its first step, and gives it back behind its last (crate `epochs`). A
//! turn of the updater stamps merged nodes with the epoch, and makes those FREE whose stamp is at most its release
//! number, which is below each pin that is held then or taken later. Turns alone advance the epoch, under the updater
//! lock. So while a try goes on, no node is used anew that was listed as it began; that is an argument over two tables,
//! and no clause. What a try is answered doesn't rest on it: locks and version words make it right.
#![tactic(auto)]

mod budget;
mod caller;
mod calls;
mod crashing;
mod ended;
mod gate;
mod making;
mod meeting;
mod ran;
mod rechecks;
mod repeats;
mod rooms;
mod rule;
mod scans;
mod shared;
mod stamps;
mod tried;
mod turns;
mod writes;

pub use caller::{Caller, CutCall, PlacedWrite};
pub use crashing::Crashed;
pub use ended::Ended;
pub use gate::{Gate, OpenGate};
pub use index_core;
pub use meeting::have_steps;
pub use rule::{
    About, AnsweredPart, BeginsCall, ByOutcome, ChecksNode, FirstRecheckStep, FirstStep,
    FirstTurnStep, FirstWorkStep, HasEpoch, JoinAll, LastRecheckStep, Member, Members, NextStep,
    NextTurnStep, Outcome, Ruled, SplitFirst,
};
pub use scans::Scanned;
pub use shared::Shared;
pub use tried::{Tried, TriedTurn};
