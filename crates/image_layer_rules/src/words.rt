//! The words of the tree in an image.

ghost use Rattle.std.specs.Prelude.{◌≡◌, ℕ, ◌<◌, ◌≤◌, replicate};
ghost use Rattle.pm_words.specs.Images.{IsImage};
ghost use Rattle.pm_words.specs.Locations.{leaf_count, kind_words};
ghost use Rattle.radix_nodes.specs.Cells.{words_of};
ghost use Rattle.tree_law.specs.Words.{kind_of, cell_in};
ghost use Rattle.layer_map.specs.Keys.{IsKey};
ghost use Rattle.tree_row.specs.Rows.{image_layer};
ghost use Rattle.image_layer_rules.specs.Faults.{image_room, leaf_key, prefix_key};

use pm_words::codes::reference::KIND;
use pm_words::offsets::cell::PREFIX;
use pm_words::offsets::{leaf, root};
use pm_words::{Image, LINE_WORDS, kind_words};
use radix_nodes::{CELL_WORDS, Cell, Key};

/// The number of the root's word.
pub(crate) const ROOT_WORD: u64 = LINE_WORDS + root::REFERENCE;

/// How many leaves there are, and how many cells of each kind.
pub(crate) fn leaf_count(image: &Image) -> u64
    ensures count { result ≡ leaf_count image.now.layout }
    ensures bound { result ≤ 4100 }
    ensures image { IsImage image.now.layout image.now.words }
{
    image.layout().leaf_count()
}

/// The root's reference.
pub(crate) fn root_of(image: &Image) -> u64
    ensures root { result ≡ (image_layer image.now.layout image.now.words).root }
    ensures image { IsImage image.now.layout image.now.words }
{
    // That it is one is a clause of this call.
    let _layout = image.layout();
    image.word(ROOT_WORD)
}

/// A word of a leaf; 0 where there is no such leaf.
pub(crate) fn leaf_word(image: &Image, leaf: u64, offset: u64) -> u64
    requires { offset < 8 }
    ensures { result ≡ (image_layer image.now.layout image.now.words).leaf leaf offset }
{
    if leaf_count(image) <= leaf {
        return 0;
    }
    image.word(image.layout().leaf_word(leaf, offset))
}

/// Whether there is such a cell: its kind is 2 to 5, and its number that of a leaf.
pub(crate) fn is_cell(image: &Image, reference: u64) -> bool
    ensures { result ≡ (image_room image.now.layout).is_cell reference }
{
    let kind = reference / KIND;
    2 <= kind && kind <= 5 && reference % KIND < leaf_count(image)
}

/// A word of a cell; 0 where there is no such cell, and behind its words.
pub(crate) fn cell_word(image: &Image, reference: u64, offset: u64) -> u64
    ensures { result ≡ cell_in (image_layer image.now.layout image.now.words) reference offset }
{
    if !is_cell(image, reference) {
        return 0;
    }
    let kind = reference / KIND;
    if kind_words(kind) <= offset {
        return 0;
    }
    image.word(image.layout().cell_word(kind, reference % KIND, offset))
}

/// A cell with all of its words, and zeros behind them.
pub(crate) fn read_cell(image: &Image, reference: u64) -> Cell
    ensures kind { result.kind ≡ kind_of reference }
    ensures words { (o : ℕ) → words_of result o ≡ cell_in (image_layer image.now.layout image.now.words) reference o }
{
    let mut words = no_words();
    for at in 0..CELL_WORDS {
        words[at] = cell_word(image, reference, at as u64);
    }
    Cell {
        kind: reference / KIND,
        words,
    }
}

/// As many words as the largest cell has, all of them 0.
fn no_words() -> [u64; CELL_WORDS]
    ensures { result ≡ replicate 264 0 }
{
    [0; CELL_WORDS]
}

/// The words of a cell's prefix.
pub(crate) fn prefix_of(image: &Image, reference: u64) -> Key
    ensures words { result ≡ prefix_key image.now.layout image.now.words reference }
    ensures key { IsKey result }
{
    [
        cell_word(image, reference, PREFIX),
        cell_word(image, reference, PREFIX + 1),
        cell_word(image, reference, PREFIX + 2),
    ]
}

/// The words of a leaf's key.
pub(crate) fn leaf_key(image: &Image, leaf: u64) -> Key
    ensures { result ≡ leaf_key image.now.layout image.now.words leaf }
{
    [
        leaf_word(image, leaf, leaf::KEY),
        leaf_word(image, leaf, leaf::KEY + 1),
        leaf_word(image, leaf, leaf::KEY + 2),
    ]
}
