//! A cell as it was read, and its words.

ghost use Rattle.std.specs.Prelude.{◌≡◌, ◌*◌, ◌<◌, ◌^◌};
ghost use Rattle.radix_nodes.specs.Cells.{words_of, entry_of, index_of};
ghost use Rattle.radix_nodes.specs.Changes.{stored};
ghost use Rattle.radix_nodes.specs.Bytes.{byte_in, byte_set};

use pm_words::offsets::cell::FIRST;

/// The words of the largest form.
pub const CELL_WORDS: usize = 264;

/// In an entry the branch byte stands above the reference.
pub const ENTRY: u64 = 1 << 32;

/// How many places form 48 has.
pub const PLACE_COUNT: u64 = 48;

/// How many words its index has.
pub const INDEX_WORDS: u64 = 32;

/// A cell as it was read: its kind, 2 to 5, and its words, with zeros behind them.
#[derive(Clone, Copy)]
pub struct Cell {
    pub kind: u64,
    pub words: [u64; CELL_WORDS],
}

/// A store of one word into a cell.
#[derive(Clone, Copy)]
pub struct CellStore {
    pub offset: u64,
    pub value: u64,
}

/// A child: its branch byte, and the reference of a leaf or a cell.
#[derive(Clone, Copy)]
pub struct Branch {
    pub byte: u8,
    pub reference: u64,
}

impl Cell {
    /// The word at this offset.
    pub(crate) fn word(&self, offset: u64) -> u64
        requires { offset < 264 }
        ensures { result ≡ words_of self.now offset }
    {
        self.words[offset as usize]
    }

    /// Stores a word.
    pub(crate) fn set(&mut self, offset: u64, value: u64)
        requires { offset < 264 }
        ensures { self.new ≡ stored self.old (record { offset = offset; value = value }) }
    {
        self.words[offset as usize] = value;
    }

    /// Form 48: the place of this branch byte's reference and one, or 0.
    pub(crate) fn index(&self, byte: u64) -> u64
        requires { byte < 256 }
        ensures { result ≡ index_of (words_of self.now) byte }
    {
        byte_in(self.word(FIRST + byte / 8), byte % 8)
    }
}

impl Branch {
    /// The entry of this child, in forms 4 and 16.
    pub(crate) fn entry(&self) -> u64
        requires { self.now.reference < 2 ^ 32 }
        ensures { result ≡ entry_of self.now.byte self.now.reference }
    {
        self.byte as u64 * ENTRY + self.reference
    }
}

/// What one stands for at this place of a word, where its bytes are counted from the lowest.
fn unit(at: u64) -> u64
    requires { at < 8 }
    ensures { result ≡ 2 ^ (8 * at) }
{
    1 << (8 * at)
}

/// The byte at this place of a word, counted from the lowest.
pub fn byte_in(word: u64, at: u64) -> u64
    requires { at < 8 }
    ensures { result ≡ byte_in word at }
{
    word / unit(at) % 256
}

/// The word with another byte at this place.
pub fn byte_set(word: u64, at: u64, byte: u64) -> u64
    requires at { at < 8 }
    requires byte { byte < 256 }
    ensures { result ≡ byte_set word at byte }
{
    let unit = unit(at);
    let rest = word - word / unit % 256 * unit;
    rest + byte * unit
}
