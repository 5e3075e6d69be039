//! Machines that make several turns one after another, with nothing between: each action is done at once, and the
//! machine is told what it gives. It has no code: a machine's own loop is in its crate.
#![tactic(auto)]
