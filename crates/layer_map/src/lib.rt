//! What a search layer is, as plain data: a finite map from keys to nodes, whatever words it is kept in. With it its
//! keys, and which words of a row are the layer's.
#![tactic(auto)]

pub mod laws;
