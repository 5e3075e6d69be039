//! A fence over one line of words, as a part of machines: for each word of the line in turn, `Load`, then `Drain`,
//! which gives the durable twin the word that was loaded. The machine knows where the line's words stand.

ghost use Rattle.std.specs.Prelude.{◌≡◌, ◌<◌};
ghost use Rattle.pm_words.specs.Fences.{line_of};

use crate::LINE_WORDS;
use crate::action::Action;

/// It makes a line durable, word by word: it loads each word and gives it to the durable twin.
#[derive(Clone, Copy)]
pub struct Fence {
    /// Which word of the line it is at.
    pub word: u64,
    pub at: FenceAt,
}

/// Whether a fence loads its word or has it in hand.
#[derive(Clone, Copy)]
pub enum FenceAt {
    Load,
    Drain { value: u64 },
}

impl Fence {
    ghost use Rattle.pm_words.specs.Fences.{fence_start, fence_asks, fence_next};

    /// A fence that has yet to begin.
    pub fn new() -> Fence
        ensures { result ≡ fence_start }
    {
        Fence {
            word: 0,
            at: FenceAt::Load,
        }
    }

    /// What it asks for, where this is the address of its word.
    pub fn action(&self, address: u64) -> Action
        ensures { result ≡ fence_asks address self.now }
    {
        match self.at {
            FenceAt::Load => Action::Load(address),
            FenceAt::Drain { value } => Action::Drain(address, value),
        }
    }

    /// What it is once it is told a number, or None where the whole line is durable.
    pub fn next(self, got: u64) -> Option<Fence>
        requires { self.word < LINE_WORDS }
        ensures { result ≡ fence_next self got }
    {
        match self.at {
            FenceAt::Load => Some(Fence {
                at: FenceAt::Drain { value: got },
                ..self
            }),
            FenceAt::Drain { .. } => {
                if self.word + 1 < LINE_WORDS {
                    Some(Fence {
                        word: self.word + 1,
                        at: FenceAt::Load,
                    })
                } else {
                    None
                }
            }
        }
    }
}

/// The first word of the line in which this word stands, where lines are counted from a line's start.
pub fn line_of(word: u64) -> u64
    ensures { result ≡ line_of word }
{
    word / LINE_WORDS * LINE_WORDS
}
