//! Keys, by their words.

ghost use Rattle.std.specs.Prelude.{◌≡◌, ◌↔◌, IsTrue};
ghost use Rattle.layer_map.specs.Keys.{key_number};
ghost use Rattle.image_layer_rules.specs.Anchors.{AreKeyWords};

use cat_key::Name;
use pm_words::KEY;
use radix_nodes::Key;

/// Whether these words are zero, or those of a name.
pub fn is_key(words: Key) -> bool
    ensures { IsTrue result ↔ AreKeyWords words }
{
    words == [0; KEY] || Name::of_words(words).is_some()
}

/// Whether they are one key.
pub fn is_same(one: Key, other: Key) -> bool
    ensures { IsTrue result ↔ (key_number one ≡ key_number other) }
{
    one == other
}
