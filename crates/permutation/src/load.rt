//! A permutation is loaded by whoever reads its node.

use crate::words::PERMUTATION_WORDS;
use pm_words::offsets::volatile;
use pm_words::{Action, Layout, Machine, Turn};

/// It loads the permutation of a node, if that was made at this version word: its version, and then its eight words. It
/// answers the words, or `None` where it was made at another one.
#[derive(Clone, Copy)]
pub struct LoadPermutation {
    pub layout: Layout,
    pub node: u64,
    pub version: u64,
    pub words: [u64; PERMUTATION_WORDS],
    pub at: LoadPermutationAt,
}

/// What it does next.
#[derive(Clone, Copy)]
pub enum LoadPermutationAt {
    /// It loads the version of the permutation.
    Version,
    /// It loads a word. Those before it are loaded.
    Word { number: u64 },
}

impl Machine for LoadPermutation {
    ghost use Rattle.permutation.specs.Loads.{IsLoad, load_asks, load_turned, load_takes, load_left};

    type Answer = Option<[u64; PERMUTATION_WORDS]>;

    ghost fits = { IsLoad };

    ghost asks = { load_asks };

    ghost turned = { load_turned };

    ghost takes = { load_takes };

    ghost left = { load_left };

    fn action(&self) -> Action {
        let offset = match self.at {
            LoadPermutationAt::Version => volatile::PERMUTATION_VERSION,
            LoadPermutationAt::Word { number } => volatile::PERMUTATION + number,
        };
        Action::Load(self.layout.node_volatile(self.node, offset))
    }

    fn resume(self, got: u64) -> Turn<LoadPermutation, Option<[u64; PERMUTATION_WORDS]>> {
        match self.at {
            LoadPermutationAt::Version => {
                if got != self.version {
                    return Turn::Done(None);
                }
                Turn::Go(LoadPermutation {
                    at: LoadPermutationAt::Word { number: 0 },
                    ..self
                })
            }
            LoadPermutationAt::Word { number } => self.loaded(number, got),
        }
    }
}

impl LoadPermutation {
    ghost use Rattle.std.specs.Prelude.{◌≡◌, ◌<◌};
    ghost use Rattle.pm_words.specs.Layouts.{IsLayout};
    ghost use Rattle.permutation.specs.Loads.{IsLoad, load_from, word_loaded};

    /// It loads the permutation of this node, if that was made at this version word.
    pub fn new(layout: Layout, node: u64, version: u64) -> LoadPermutation
        requires layout { IsLayout layout }
        requires node { node < layout.nodes }
        ensures new { result ≡ load_from layout node version }
        ensures sound { IsLoad result }
    {
        LoadPermutation {
            layout,
            node,
            version,
            words: [0; PERMUTATION_WORDS],
            at: LoadPermutationAt::Version,
        }
    }

    /// It has this word more.
    fn loaded(
        self,
        number: u64,
        got: u64,
    ) -> Turn<LoadPermutation, Option<[u64; PERMUTATION_WORDS]>>
        requires { number < 8 }
        ensures { result ≡ word_loaded self number got }
    {
        let mut words = self.words;
        words[number as usize] = got;
        if number + 1 == PERMUTATION_WORDS as u64 {
            return Turn::Done(Some(words));
        }
        Turn::Go(LoadPermutation {
            words,
            at: LoadPermutationAt::Word { number: number + 1 },
            ..self
        })
    }
}
