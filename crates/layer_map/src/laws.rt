//! Laws of keys and of layers, for the proofs of crates above. The functions do nothing: each names what is proved.
ghost use Rattle.layer_map.specs.Keys.{NumbersKeepOrder, ZeroIsLeast, NumbersTellKeys, WordsKeepOrder};
ghost use Rattle.layer_map.specs.Layers.{ApartIsFew};

/// Names compare as the numbers of their keys do, the zero key is below each of these, and a number tells its key. Keys
/// compare word by word as their numbers do.
pub fn key_law()
    ensures order { NumbersKeepOrder }
    ensures zero { ZeroIsLeast }
    ensures distinct { NumbersTellKeys }
    ensures words { WordsKeepOrder }
{}

/// A layer that leads no two keys to one node has at most as many keys as there are nodes.
pub fn layer_law()
    ensures few { ApartIsFew }
{}
