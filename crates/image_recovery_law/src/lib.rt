//! What a recovery of the index is: from a sound image, whatever calls left it, to an index at rest with the same map.
//!
//! All of it is said of an image by its columns. Whichever words of those are durable when a recovery is broken, they
//! are a sound image with the same list and map, so another recovery may begin there.
#![tactic(auto)]

pub mod laws;
