//! The tests, by what they are of.

mod calls;
mod images;
mod rechecks;
mod recoveries;
mod stores;
mod tries;
