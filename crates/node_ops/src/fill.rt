//! The filling of a clear slot. Its states, in order: `Word`, the stores of the slot's four words; `Print`, the store
//! of its fingerprint; `FenceSlot` and `FencePrint`, which make both lines durable; `Bitmap`, the one store that makes
//! the slot live.

ghost use Rattle.std.specs.Prelude.{◌≡◌, ℕ};

use crate::call::{Call, print_word, slot_word};
use crate::finish::{Finish, FinishAt};
use crate::lookup::{Hit, Hold};
use cat_key::WORDS;
use data_node::{with_live, with_print, without_live};
use pm_words::offsets::node;
use pm_words::{Action, Fence, Memory, Steps, line_of};
use std::sync::ledger::Ledger;

/// Writes the call's name and value into a clear slot, with its fingerprint, and makes these durable. Then it stores
/// the bitmap, once: the slot is live there, and the one that had the name before is clear. So the node shows the old
/// number or the new one, and never neither.
#[derive(Clone, Copy)]
pub struct Fill {
    pub call: Call,
    pub hold: Hold,
    pub bitmap: u64,
    /// The word in which the slot's fingerprint stands, as it was loaded.
    pub prints: u64,
    pub slot: u64,
    /// The slot that has the name so far.
    pub hit: Option<Hit>,
    pub value: u64,
    pub at: FillAt,
}

/// What it does next.
#[derive(Clone, Copy)]
pub enum FillAt {
    /// The slot's words: the name's, then the value.
    Word { k: u64 },
    Print,
    FenceSlot { fence: Fence },
    FencePrint { fence: Fence },
    Bitmap,
}

impl Fill {
    ghost use Rattle.std.specs.Prelude.{◌≡◌, ◌<◌, IfSome};
    ghost use Rattle.pm_words.specs.Turns.{GoesBelow};
    ghost use Rattle.data_node.specs.Bits.{printed};
    ghost use Rattle.pm_words.specs.declared.machine.Turn.TheVariants.{Done};
    ghost use Rattle.machine_runs.specs.Runs.{Bursts, MayGo};
    ghost use Rattle.node_ops.specs.FillSteps.{FillTurns, fill_takes, fill_turned, fill_left, fill_word, bitmap_after};
    ghost use Rattle.node_ops.specs.FillSteps.{IsFill, fill_asks, filled};

    /// The action that it asks for.
    #[inline(always)]
    pub(crate) fn action(&self) -> Action
        requires { IsFill self.now }
        ensures { result ≡ fill_asks self.now }
    {
        let call = &self.call;
        match &self.at {
            FillAt::Word { k } => Action::Store(
                call.address(slot_word(self.slot, *k)),
                self.word(*k),
            ),
            FillAt::Print => Action::Store(call.address(print_word(self.slot)), self.print()),
            FillAt::FenceSlot { fence } => {
                fence.action(call.address(line_of(slot_word(self.slot, 0)) + fence.word))
            }
            FillAt::FencePrint { fence } => {
                fence.action(call.address(line_of(print_word(self.slot)) + fence.word))
            }
            FillAt::Bitmap => Action::Store(call.address(node::BITMAP), self.bitmap_after()),
        }
    }

    /// Tells it in place the number that its action gave, and answers whether it is done.
    #[inline(always)]
    pub(crate) fn advance(&mut self, got: u64) -> bool
        requires { fill_takes self.old got }
        ensures turned { FillTurns (fill_turned self.old got) self.new result }
        ensures fewer { GoesBelow fill_left (fill_left self.old) (fill_turned self.old got) }
    {
        match &mut self.at {
            FillAt::Word { k } => {
                if *k + 1 < WORDS as u64 + 1 {
                    *k += 1;
                } else {
                    self.at = FillAt::Print;
                }
            }
            FillAt::Print => {
                self.at = FillAt::FenceSlot {
                    fence: Fence::new(),
                };
            }
            FillAt::FenceSlot { fence } => match fence.next(got) {
                Some(next) => *fence = next,
                None => {
                    self.at = FillAt::FencePrint {
                        fence: Fence::new(),
                    };
                }
            },
            FillAt::FencePrint { fence } => match fence.next(got) {
                Some(next) => *fence = next,
                None => self.at = FillAt::Bitmap,
            },
            FillAt::Bitmap => return true,
        }
        false
    }

    /// Does what it asks for until it is done, with nothing between.
    pub(crate) fn run<L: Ledger>(&mut self, memory: &mut Memory, steps: &mut Steps<L>)
        requires { MayGo fill_asks fill_turned fill_left fill_takes memory.old.layout memory.old.words self.old }
        ensures { Bursts fill_asks fill_turned fill_left memory.old memory.new self.old (Done (filled self.new))
            steps.old steps.new }
    {
        'turns: loop {
            let got = memory.act(self.action(), steps);
            if self.advance(got) {
                return;
            }
        }
    }

    /// What is left to do once it is done.
    pub(crate) fn finish(&self) -> Finish
        ensures { result ≡ filled self.now }
    {
        Finish {
            call: self.call,
            hold: self.hold,
            old: Hit::value_of(self.hit),
            new: Some(self.value),
            at: FinishAt::Fence {
                line: line_of(node::BITMAP),
                fence: Fence::new(),
            },
        }
    }

    /// Word `k` of the slot.
    fn word(&self, k: u64) -> u64
        requires { k < 4 }
        ensures { result ≡ fill_word self.now k }
    {
        if k < WORDS as u64 {
            self.call.name[k as usize]
        } else {
            self.value
        }
    }

    /// The word of fingerprints with that of the name in the slot's place.
    fn print(&self) -> u64
        ensures { result ≡ printed self.now.prints self.now.slot self.now.call.print }
    {
        with_print(self.prints, self.slot, self.call.print)
    }

    /// The bitmap in which the slot is live, and the one that had the name no longer is.
    fn bitmap_after(&self) -> u64
        requires slot { self.now.slot < 64 }
        requires hit { IfSome self.now.hit (λ hit. hit.slot < 64) }
        ensures { result ≡ bitmap_after self.now }
    {
        let kept = match self.hit {
            Some(hit) => without_live(self.bitmap, hit.slot),
            None => self.bitmap,
        };
        with_live(kept, self.slot)
    }
}
