//! Words of the tree, and keys as their words are read.

ghost use Rattle.std.specs.Prelude.{◌≡◌, ◌==◌, ◌*◌, ◌<◌, nat_le, slice_set};
ghost use Rattle.cat_key.specs.declared.TheConstants.{WORDS};
ghost use Rattle.pm_words.specs.Layouts.{IsLayout};
ghost use Rattle.pm_words.specs.Locations.{Cell, word_number, image_words, kind_words};
ghost use Rattle.radix_nodes.specs.Keys.{key_bytes};
ghost use Rattle.tree_row.specs.tree_law.specs.Trees.{span, first_bytes, byte_at};
ghost use Rattle.tree_row.specs.tree_law.specs.Words.{kind_of, number_of};
ghost use Rattle.tree_row.specs.layer_map.specs.Keys.{key_number};
ghost use Rattle.tree_floor.specs.Floors.{IsCellOf};

use cat_key::WORDS;
use pm_words::Layout;
use pm_words::codes::reference::KIND;
use radix_nodes::{Key, key_byte, prefix_of};

/// The number of the root's word among those of an image.
pub const ROOT: u64 = 8;

/// How many words a key has, as an offset.
pub const KEY_WORDS: u64 = WORDS as u64;

/// A cell's word, as an image word.
#[inline(always)]
pub fn word_of(layout: Layout, cell: u64, offset: u64) -> u64
    requires layout { IsLayout layout }
    requires cell { IsCellOf layout cell }
    requires offset { offset < kind_words (kind_of cell) }
    ensures word { result ≡ word_number layout (Cell (kind_of cell) (number_of cell) offset) }
    ensures within { result < image_words layout }
{
    layout.cell_word(cell / KIND, cell % KIND, offset)
}

/// A key's words with this one among them.
#[inline(always)]
pub fn key_with(words: Key, word: u64, got: u64) -> Key
    requires { word < WORDS }
    ensures { result ≡ slice_set words word got }
{
    let mut words = words;
    words[word as usize] = got;
    words
}

/// Whether the one key is at most the other.
pub(crate) fn is_at_most(low: Key, high: Key) -> bool
    ensures { result ≡ nat_le (key_number low) (key_number high) }
{
    low <= high
}

/// Whether these are the first so many bytes of a key, with zeros behind them.
pub fn is_prefix(prefix: Key, depth: u64, key: Key) -> bool
    requires { depth < key_bytes }
    ensures { result ≡ (first_bytes depth (key_number key) * span depth == key_number prefix) }
{
    is_same(prefix_of(&key, depth), prefix)
}

/// Whether they are one key.
pub fn is_same(one: Key, other: Key) -> bool
    ensures { result ≡ (key_number one == key_number other) }
{
    one == other
}

/// The byte of a key behind so many.
pub fn byte_of(key: Key, depth: u64) -> u64
    requires { depth < key_bytes }
    ensures byte { result ≡ byte_at depth (key_number key) }
    ensures small { result < 256 }
{
    key_byte(&key, depth) as u64
}
