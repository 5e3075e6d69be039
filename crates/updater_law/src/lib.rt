//! What keeps the search layer covered while splits, merges and a turn of the updater go on beside each other, and when
//! a merged node may be used again.
//!
//! All of it is plain data: which nodes are listed and with which anchors, their statuses, stamps and locks, the log
//! lines and the layer, both as cached and as durable, and the stage of the turn. Kinds of step lead from one such
//! state to the next: those of the turn, and those of other parties that touch any of this.
#![tactic(auto)]

pub mod laws;
