ghost use Rattle.std.specs.Prelude.{◌≡◌, ◌+◌, ◌<◌, IfOk, slice_index};
ghost use Rattle.pm_words.specs.Layouts.{IsLayout};
ghost use Rattle.pm_words.specs.Locations.{image_words, row_words};
ghost use Rattle.pm_words.specs.Rows.{IsRow, MayName, CanAct, action_address, acted, got, evicted, cached_row};
ghost use Rattle.pm_words.specs.Rows.{durable_row, row_of};
ghost use Rattle.pm_words.specs.declared.action.Action.TheVariants.{Store};

use crate::NoMemory;
use crate::action::Action;
use crate::image::Image;
use crate::layout::Layout;
use crate::steps::Steps;
use std::alloc::Global;
use std::marker::Model;
use std::sync::ledger::Ledger;

/// The rows of words in simulated persistent memory: the volatile words, then the cached twins of the image words, then
/// their durable twins. An address is a number in this order.
#[derive(Drop)]
pub struct Memory {
    layout: Layout,
    words: Vec<u64>,
}

impl Model for Memory {
    ghost use Rattle.pm_words.specs.Images.{Row};
    ghost use Rattle.pm_words.specs.Rows.{IsRow};

    ghost Value = { Row };

    ghost view = { λ m. record { layout = m.layout; words = m.words.items } };

    ghost invariant = { λ m. IsRow m.layout m.words.items };
}

impl Memory {
    /// Both twins are the image, and every volatile word is 0.
    pub fn of(alloc: Global, image: Image) -> Result<Memory, NoMemory>
        ensures { IfOk result (λ m. m ≡ record { layout = image.layout; words = row_of image.layout image.words }) }
    {
        let layout = image.layout();
        let mut words = vec![in alloc; 0u64; layout.volatile_words() as usize]?;
        words.extend_from_slice(image.words())?;
        words.extend_from_slice(image.words())?;
        Ok(Memory { layout, words })
    }

    /// The memory with these words: as many as the layout has, with its header in both twins.
    pub fn of_words(layout: Layout, words: Vec<u64>) -> Memory
        requires { IsRow layout words.items }
        ensures { result ≡ record { layout = layout; words = words.items } }
    {
        Memory { layout, words }
    }

    /// Its words, by their numbers.
    pub fn words(&self) -> &[u64]
        ensures words { result.now ≡ self.now.words }
        ensures row { IsRow self.now.layout self.now.words }
    {
        self.words.as_slice()
    }

    /// The word at this address.
    pub fn word(&self, at: u64) -> u64
        requires { at < row_words self.now.layout }
        ensures word { result ≡ slice_index self.now.words at }
        ensures row { IsRow self.now.layout self.now.words }
    {
        self.words[at as usize]
    }

    /// The layout of its image.
    pub fn layout(&self) -> Layout
        ensures layout { result ≡ self.now.layout }
        ensures row { IsRow self.now.layout self.now.words }
    {
        self.layout
    }

    /// Does one action, and gives its number: the word loaded, the word found by an exchange, the word before an add,
    /// and 0 for a store or a drain.
    pub fn act<L: Ledger>(&mut self, action: Action, steps: &mut Steps<L>) -> u64
        requires { CanAct self.old.layout self.old.words action }
        ensures row { self.new ≡ record self.old { words = acted self.old.layout self.old.words action } }
        ensures got { result ≡ got self.old.layout self.old.words action }
        ensures tick { steps.new ≡ steps.old + 1 }
    {
        steps.tick();
        let address = action_address(&self.layout, action) as usize;
        let found = self.words[address];
        self.words[address] = action.word_after(found);
        action.given(found)
    }

    /// Stores a word, and counts it as no step: for whoever makes the rows ready before any call runs.
    pub fn store(&mut self, address: u64, word: u64)
        requires { CanAct self.old.layout self.old.words (Store address word) }
        ensures { self.new ≡ record self.old { words = acted self.old.layout self.old.words (Store address word) } }
    {
        self.words[address as usize] = word;
    }

    /// Copies the cached twin of an image word to its durable twin.
    pub fn evict(&mut self, word: u64)
        requires { word < image_words self.old.layout }
        ensures { self.new ≡ record self.old { words = evicted self.old.layout self.old.words word } }
    {
        let durable = self.layout.durable(word) as usize;
        self.words[durable] = self.words[self.layout.cached(word) as usize];
    }

    /// The image of the cached twins as they are, whichever of them are durable.
    pub fn image(&self, alloc: Global) -> Result<Image, NoMemory>
        ensures { IfOk result (λ image.
            image ≡ record { layout = self.now.layout; words = cached_row self.now.layout self.now.words }) }
    {
        let (cached, durable) = (self.layout.cached(0), self.layout.durable(0));
        let words = self.words[cached as usize..durable as usize].to_vec(alloc)?;
        Ok(Image::of_words(self.layout, words))
    }

    /// What a crash leaves: the durable twins.
    pub fn crash(self) -> Image
        ensures { result ≡ record { layout = self.layout; words = durable_row self.layout self.words } }
    {
        let Memory { layout, mut words } = self;
        words.drain(..layout.durable(0) as usize);
        Image::of_words(layout, words)
    }
}

/// The address of the word that an action reads or writes: of a drain the durable twin.
fn action_address(layout: &Layout, action: Action) -> u64
    requires layout { IsLayout layout.now }
    requires names { MayName layout.now action }
    ensures address { result ≡ action_address layout.now action }
    ensures within { result < row_words layout.now }
{
    match action {
        Action::Load(address)
        | Action::Store(address, _)
        | Action::Exchange(address, _, _)
        | Action::Add(address) => address,
        Action::Drain(address, _) => address + layout.image_words(),
    }
}
