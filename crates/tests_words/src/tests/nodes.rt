//! Machines on the words of nodes and of the search layer, their actions counted by hand.

mod changes;
mod permutations;
mod walks;
