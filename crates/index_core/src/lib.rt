//! The core of the index: its words, and at most one call in flight for each party, under every schedule of the steps.
//!
//! Each step is one action of one party's machine. That a step keeps the index lawful, and that an answer is legal, is
//! the law of the index; the core brings the words, the parties and the history together under that law.
#![tactic(auto)]

mod call;
mod crash;
mod flight;
mod image;
mod index;
pub mod laws;
mod listing;
mod lone;
mod party;
mod rechecking;
mod seeds;
mod turns;
mod within;

pub use crash::{Crashed, CutCall, Cuts};
pub use flight::{Flight, begins_in};
pub use index::{Core, Parts};
pub use listing::listed_pairs;
pub use lone::LONE_STAMP;
pub use node_ops;
pub use party::{
    CoreCall, CoreReply, InFlight, PartyState, Rechecking, Stepped, Whole, Within, idle_states,
};
pub use seeds::{evict_chosen, is_chosen};
