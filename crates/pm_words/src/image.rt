ghost use Rattle.std.specs.Prelude.{◌≡◌, ◌<◌, IfOk, slice_index};
ghost use Rattle.pm_words.specs.Layouts.{IsLayout};
ghost use Rattle.pm_words.specs.Locations.{image_words};
ghost use Rattle.pm_words.specs.Images.{IsImage, fresh_words};

use crate::layout::Layout;
use crate::offsets::{header, leaf, root};
use crate::{LINE_WORDS, NoMemory};
use std::alloc::Global;
use std::marker::Model;

/// The text that begins each image, as the bytes of word 0.
pub(crate) const MAGIC: &[u8; 8] = b"PACCAT01";

/// The format of the images that are made and read.
pub(crate) const FORMAT: u64 = 1;

/// The reference of leaf 0, to which the root of a fresh image refers.
const FIRST_LEAF: u64 = 1 << 16;

/// The generation of a fresh image.
const FIRST_GENERATION: u64 = 1;

/// The persistent words of a catalogue, as a file holds them. The words 0 to 4 are the header of its layout.
#[derive(Drop)]
pub struct Image {
    layout: Layout,
    words: Vec<u64>,
}

impl Model for Image {
    ghost use Rattle.pm_words.specs.Images.{Row, IsImage};

    ghost Value = { Row };

    ghost view = { λ i. record { layout = i.layout; words = i.words.items } };

    ghost invariant = { λ i. IsImage i.layout i.words.items };
}

impl Image {
    /// The image of a catalogue without names. The root refers to its one leaf, which leads to node 0.
    pub fn fresh(alloc: Global, layout: Layout) -> Result<Image, NoMemory>
        requires { IsLayout layout }
        ensures { IfOk result (λ i. i ≡ record { layout = layout; words = fresh_words layout }) }
    {
        let mut words = vec![in alloc; 0u64; layout.image_words() as usize]?;
        words[header::MAGIC as usize] = u64::from_le_bytes(*MAGIC);
        words[header::FORMAT as usize] = FORMAT;
        words[header::NODES as usize] = layout.nodes();
        words[header::SLOTS as usize] = layout.slots();
        words[header::CALLERS as usize] = layout.callers();
        words[header::GENERATION as usize] = FIRST_GENERATION;
        words[(LINE_WORDS + root::REFERENCE) as usize] = FIRST_LEAF;
        words[layout.leaf_word(0, leaf::NODE) as usize] = 1;
        Ok(Image { layout, words })
    }

    /// The layout that its header tells.
    pub fn layout(&self) -> Layout
        ensures layout { result ≡ self.now.layout }
        ensures image { IsImage self.now.layout self.now.words }
    {
        self.layout
    }

    /// One word, by its number.
    pub fn word(&self, at: u64) -> u64
        requires { at < image_words self.now.layout }
        ensures { result ≡ slice_index self.now.words at }
    {
        self.words[at as usize]
    }

    pub(crate) fn of_words(layout: Layout, words: Vec<u64>) -> Image
        requires { IsImage layout words.items }
        ensures { result ≡ record { layout = layout; words = words.items } }
    {
        Image { layout, words }
    }

    pub(crate) fn words(&self) -> &[u64]
        ensures words { result.now ≡ self.now.words }
        ensures image { IsImage self.now.layout self.now.words }
    {
        &self.words
    }
}
