//! How stale a search layer gets whose core nobody else calls: a walk makes no more hops than log lines wait.
#![tactic(auto)]

pub mod laws;
