//! What opens an index: over the words that a whole recovery leaves, once its volatile words tell the list, an index
//! with no call and no turn in flight keeps all that `index_law` and `index_layer_law` say.
#![tactic(auto)]

pub mod laws;
