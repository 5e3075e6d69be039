//! What an index keeps with its search layer: the steps of calls, and those of the updater's turn beside them, keep all
//! that `index_law` and `updater_law` say, of one index.
#![tactic(auto)]

pub mod laws;
