//! Tests of the core of the index, and of images that are opened as one, in a crate of their own, so that those are
//! proved once.
//!
//! What calls answer is proved, and looked at on the program. These tests are of what neither shows: tries that are
//! turned back, stores in their order, rechecks, the end of the generations, and images of which a word is changed.
#![tactic(auto)]

#[cfg(test)]
mod tests;
