//! The shape of an index: where its members begin, as callers can tell it, and what calls make of that. The code here
//! is the map that is kept so, however it is kept, and the plain one that serves as the slow program of the
//! definitions.
#![tactic(auto)]

pub mod laws;
mod map;
mod plain;

pub use map::{Full, MapPart, NameMap};
pub use plain::{PlainMap, told};
