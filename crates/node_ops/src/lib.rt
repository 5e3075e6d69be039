//! The calls on a node as machines: a get, a put, a delete and a part of a range scan, that ask for one action on one
//! word at a time.
//!
//! Each takes the floor of its name in the search layer, walks from there to the node of its name, loads the clock, and
//! looks the name up. A write locks the node before it loads the clock. A read takes no lock: it loads the node's
//! version word once more at last, and what it read counts only where that is the word with which its walk ended. A
//! part of a scan locks its node only where that has no permutation by which to go.
//!
//! A write then stores in such an order that a crash at any moment leaves the node as it was before the call or as it
//! is after it: what a bitmap makes live is durable before the bitmap is stored, and the bitmap before the clock counts
//! the write.
//!
//! A put that finds its node full and without its name splits it, and is to be made again. A delete that leaves few
//! names takes a log line before its store, and once it is counted merges the next node into its own.
//!
//! Each call is a machine, `Running` is the machine of any call, and `Recheck` one of its own. A look-up, the fill and
//! the end of a write, which stand in a call alone, are asked for their action and told their number in place.
//!
//! Callers on threads ask a call for its action, and tell it a number, at each single event. What they go through then
//! is marked `inline(always)`: handed from level to level through memory, an action would cost more than the event.
#![tactic(auto)]

mod call;
mod del;
mod fill;
mod finish;
mod get;
mod in_place;
pub mod laws;
mod lookup;
mod part;
mod put;
mod recheck;
mod running;
mod single_del;
mod single_put;

pub use call::Call;
pub use del::Del;
pub use fill::{Fill, FillAt};
pub use finish::{Finish, FinishAt};
pub use get::Get;
pub use lookup::{Directory, Found, Hit, Hold, Looked, Lookup, LookupAt};
pub use part::{Listing, Part, PartWords, Reading, ReadingAt, Way};
pub use put::Put;
pub use recheck::{Recheck, Same};
pub use running::Running;
pub use single_del::{CountedDel, SingleDel, SingleDelDone};
pub use single_put::{FullNode, SinglePut, SinglePutDone};
