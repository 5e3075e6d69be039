//! What a round of calls on the catalogue means: maps, writes, records, and which rounds are legal.
//!
//! Every crate above states its answers in the words of `specs/`. The code here is the data that those words speak of.
#![tactic(auto)]

mod growing;
mod items;
pub mod laws;
mod op;
mod pairs;
mod plan;
mod record;
mod replaying;
mod settling;

pub use growing::{Names, change, change_all, names_of, pairs_in};
pub use items::Items;
pub use op::{CallerOp, Change, NameOp, Op, Write, Writes};
pub use pairs::{number_in, position_of};
pub use plan::{Budgets, CrashPlan, Ops, RoundPlan};
pub use record::{CutMark, Pairs, Parts, Record, Records, Reply, ScanPart};
pub use replaying::replay;
pub use settling::settle;
pub use std::alloc::AllocError as NoMemory;
