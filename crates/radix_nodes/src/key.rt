//! Keys: the words of a name, and of the key of all zeros.

ghost use Rattle.std.specs.Prelude.{◌≡◌, ℕ, ◌<◌, slice_index};
ghost use Rattle.radix_nodes.specs.Keys.{key_bytes, key_byte_of, first_bytes_of, IsPrefixOf, IsShared};
ghost use Rattle.radix_nodes.specs.Making.{prefix_word};

use cat_key::WORDS;

/// A key. Its words compare one after another.
pub type Key = [u64; WORDS];

/// How many bytes a key has. Eight stand in each word, the first in the highest place.
pub const KEY_BYTES: u64 = 8 * WORDS as u64;

/// The byte of a key at this place, counted from 0.
pub fn key_byte(key: &Key, at: u64) -> u8
    requires { at < key_bytes }
    ensures { result ≡ key_byte_of (slice_index key.now) at }
{
    let word = key[(at / 8) as usize];
    ((word >> (56 - 8 * (at % 8))) % 256) as u8
}

/// The first so many bytes of a key, with zeros behind them: the prefix of a cell with this depth.
pub fn prefix_of(key: &Key, depth: u64) -> Key
    ensures prefix { IsPrefixOf depth (slice_index key.now) (slice_index result) }
    ensures words { (k : ℕ) → k < 3 → slice_index result k ≡ prefix_word depth (slice_index key.now) k }
{
    let mut prefix = *key;
    for at in 0..WORDS {
        prefix[at] = first_bytes(key[at], depth.saturating_sub(8 * at as u64));
    }
    prefix
}

/// The first so many bytes of a word, with zeros behind them.
fn first_bytes(word: u64, bytes: u64) -> u64
    ensures { result ≡ first_bytes_of word bytes }
{
    if bytes == 0 {
        return 0;
    }
    if bytes >= 8 {
        return word;
    }
    word - word % (1 << (64 - 8 * bytes))
}

/// How many first bytes two keys share.
pub fn shared_bytes(one: &Key, other: &Key) -> u64
    ensures { IsShared (slice_index one.now) (slice_index other.now) result }
{
    for at in 0..KEY_BYTES {
        if key_byte(one, at) != key_byte(other, at) {
            return at;
        }
    }
    KEY_BYTES
}
