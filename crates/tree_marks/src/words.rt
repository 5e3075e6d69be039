//! The words of the tree in a row, as its cached twins have them.

ghost use Rattle.std.specs.Prelude.{◌≡◌, ℕ, ◌<◌, ◌≤◌, replicate};
ghost use Rattle.pm_words.specs.Locations.{Cached, leaf_count, kind_words};
ghost use Rattle.pm_words.specs.Rows.{IsRow};
ghost use Rattle.radix_nodes.specs.Cells.{words_of};
ghost use Rattle.tree_law.specs.Words.{kind_of, cell_in};
ghost use Rattle.tree_row.specs.Rows.{layer_words};
ghost use Rattle.tree_marks.specs.Marked.{row_room};

use pm_words::codes::reference::KIND;
use pm_words::offsets::root;
use pm_words::{LINE_WORDS, Memory, kind_words};
use radix_nodes::{CELL_WORDS, Cell};

/// The number of the root's word.
const ROOT_WORD: u64 = LINE_WORDS + root::REFERENCE;

/// How many leaves there are, and how many cells of each kind.
pub(crate) fn leaf_count(memory: &Memory) -> u64
    ensures count { result ≡ leaf_count memory.now.layout }
    ensures bound { result ≤ 4100 }
    ensures row { IsRow memory.now.layout memory.now.words }
{
    memory.layout().leaf_count()
}

/// The root's reference.
pub(crate) fn root_of(memory: &Memory) -> u64
    ensures { result ≡ (layer_words memory.now.layout memory.now.words Cached).root }
{
    let layout = memory.layout();
    memory.word(layout.cached(ROOT_WORD))
}

/// Whether there is such a cell: its kind is 2 to 5, and its number that of a leaf.
pub(crate) fn is_cell(memory: &Memory, reference: u64) -> bool
    ensures { result ≡ (row_room memory.now.layout).is_cell reference }
{
    let kind = reference / KIND;
    2 <= kind && kind <= 5 && reference % KIND < leaf_count(memory)
}

/// A word of a cell; 0 where there is no such cell, and behind its words.
pub(crate) fn cell_word(memory: &Memory, reference: u64, offset: u64) -> u64
    ensures { result ≡ cell_in (layer_words memory.now.layout memory.now.words Cached) reference offset }
{
    if !is_cell(memory, reference) {
        return 0;
    }
    let kind = reference / KIND;
    if kind_words(kind) <= offset {
        return 0;
    }
    let layout = memory.layout();
    memory.word(layout.cached(layout.cell_word(kind, reference % KIND, offset)))
}

/// A cell with all of its words, and zeros behind them.
pub(crate) fn read_cell(memory: &Memory, reference: u64) -> Cell
    ensures kind { result.kind ≡ kind_of reference }
    ensures words { (o : ℕ) → words_of result o ≡ cell_in (layer_words memory.now.layout memory.now.words Cached)
        reference o }
{
    let mut words = no_words();
    for at in 0..CELL_WORDS {
        words[at] = cell_word(memory, reference, at as u64);
    }
    Cell {
        kind: reference / KIND,
        words,
    }
}

/// As many words as the largest cell has, all of them 0.
fn no_words() -> [u64; CELL_WORDS]
    ensures { result ≡ replicate 264 0 }
{
    [0; CELL_WORDS]
}
