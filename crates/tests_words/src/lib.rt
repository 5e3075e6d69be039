//! Tests of names and their words, of version words, of where words stand, of machines on nodes and on the search
//! layer, and of the rules of sound images. They stand in a crate of their own, so that what they test is proved once.
#![tactic(auto)]

#[cfg(test)]
mod tests;
