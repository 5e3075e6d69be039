//! The slow plain map of several members: the definitions of the shape of an index as a program that splits and merges.
#![tactic(auto)]

mod bounds;
mod map;
mod pairs;
mod targets;

pub use map::MemberMap;
