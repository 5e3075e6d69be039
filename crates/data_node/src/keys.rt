//! The order of keys by their words.

ghost use Rattle.std.specs.Prelude.{◌≡◌, nat_lt};
ghost use Rattle.data_node.specs.Lists.{number_of};

use cat_key::WORDS;

/// Whether the words of one key are below those of the other, the first word first.
pub fn is_below(key: &[u64; WORDS], other: &[u64; WORDS]) -> bool
    ensures { result ≡ nat_lt (number_of key.now) (number_of other.now) }
{
    key < other
}
