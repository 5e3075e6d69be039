//! The end of a write. Its states, in order: `Fence` makes the line of its last store durable, `Add` counts it in the
//! clock, which gives it its place, and `Unlock` gives the node back.

ghost use Rattle.std.specs.Prelude.{◌≡◌, ℕ};

use crate::call::Call;
use crate::lookup::Hold;
use call_stages::{Once, Placed};
use cat_history::{Change, NameOp};
use pm_words::offsets::node;
use pm_words::offsets::shared::CLOCK;
use pm_words::{Action, Fence, FenceAt, LINE_WORDS, Memory, Steps};
use std::sync::ledger::Ledger;
use version_lock::freed_of;

/// The end of a write whose store is made: it makes the line of that store durable, takes its place from the clock, and
/// gives the node back.
#[derive(Clone, Copy)]
pub struct Finish {
    pub call: Call,
    pub hold: Hold,
    /// The number that the name had.
    pub old: Option<u64>,
    /// The number that the name has from now on; None of a delete.
    pub new: Option<u64>,
    pub at: FinishAt,
}

/// What it does next.
#[derive(Clone, Copy)]
pub enum FinishAt {
    /// The offset of the line's first word.
    Fence { line: u64, fence: Fence },
    Add,
    Unlock { place: u64 },
}

impl Finish {
    ghost use Rattle.std.specs.Prelude.{◌≡◌, ◌↔◌, IfSome, IsFalse};
    ghost use Rattle.pm_words.specs.declared.machine.Turn.TheVariants.{Go};
    ghost use Rattle.pm_words.specs.Fences.{fence_start};
    ghost use Rattle.pm_words.specs.Turns.{AdvancesTo, GoesBelow};
    ghost use Rattle.machine_runs.specs.Runs.{AddsNothing, Bursts, MayGo};
    ghost use Rattle.call_stages.specs.Stages.{counted, placed_in};
    ghost use Rattle.node_ops.specs.Calls.{IsCall, name_in};
    ghost use Rattle.node_ops.specs.FinishSteps.{IsFinish, finish_asks, finish_takes, finish_turned, finish_left};
    ghost use Rattle.node_ops.specs.CallStages.{change_to, finish_stage};
    ghost use Rattle.node_ops.specs.Asked.{op_of_finish};

    /// The action that it asks for.
    #[inline(always)]
    pub(crate) fn action(&self) -> Action
        requires { IsFinish self.now }
        ensures { result ≡ finish_asks self.now }
    {
        match &self.at {
            FinishAt::Fence { line, fence } => fence.action(self.call.address(*line + fence.word)),
            FinishAt::Add => Action::Add(CLOCK),
            FinishAt::Unlock { .. } => {
                Action::Store(self.call.address(node::VERSION), freed_of(self.hold.locked))
            }
        }
    }

    /// Tells it in place the number that its action gave. It goes on, or is done where there is an answer.
    #[inline(always)]
    pub(crate) fn advance(&mut self, got: u64) -> Option<Once<Placed>>
        requires { finish_takes self.now got }
        ensures turned { AdvancesTo (finish_turned self.entry.now got) self.exit.now result }
        ensures fewer { GoesBelow finish_left (finish_left self.entry.now) (finish_turned self.entry.now got) }
    {
        match &mut self.at {
            FinishAt::Fence { fence, .. } => {
                match fence.next(got) {
                    Some(next) => *fence = next,
                    None => self.at = FinishAt::Add,
                }
                None
            }
            FinishAt::Add => {
                self.at = FinishAt::Unlock { place: got };
                None
            }
            FinishAt::Unlock { place } => Some(Once::Done(Placed {
                old: self.old,
                place: *place,
                hops: self.call.hops,
            })),
        }
    }

    /// The first word of its line, where it has yet to begin to make that durable.
    pub(crate) fn line_to_flush(&self) -> Option<u64>
        ensures { IfSome result (λ line. self.now.at ≡ FinishAt.Fence line fence_start) }
    {
        let FinishAt::Fence { line, fence } = &self.at else {
            return None;
        };
        let FenceAt::Load = &fence.at else {
            return None;
        };
        if fence.word == 0 { Some(*line) } else { None }
    }

    /// Makes the line durable that begins at this offset, word by word, with nothing between. It is to be counted then.
    pub(crate) fn flush<L: Ledger>(&mut self, line: u64, memory: &mut Memory, steps: &mut Steps<L>)
        requires may { MayGo finish_asks finish_turned finish_left finish_takes memory.now.layout memory.now.words
            self.now }
        requires begins { self.now.at ≡ FinishAt.Fence line fence_start }
        ensures bursts { Bursts finish_asks finish_turned finish_left memory.entry.now memory.exit.now self.entry.now
            (Go self.exit.now) steps.entry.now steps.exit.now }
        ensures durable { self.exit.now ≡ record self.entry.now { at = FinishAt.Add } }
    {
        for word in 0..LINE_WORDS {
            let address = self.call.address(line + word);
            let value = memory.act(Action::Load(address), steps);
            memory.act(Action::Drain(address, value), steps);
        }
        self.at = FinishAt::Add;
    }

    /// Whether its next action counts its change in the clock.
    pub(crate) fn is_counted_next(&self) -> bool
        ensures { IsFalse result ↔ AddsNothing (finish_asks self.now) }
    {
        match &self.at {
            FinishAt::Add => true,
            FinishAt::Fence { .. } | FinishAt::Unlock { .. } => false,
        }
    }

    /// The change that the write makes.
    fn change(&self) -> Change
        requires { IsCall self.now.call }
        ensures { result ≡ change_to (name_in self.now.call) self.now.new }
    {
        let name = self.call.name();
        match self.new {
            Some(value) => Change::Put { name, value },
            None => Change::Del { name },
        }
    }

    /// The op that the write is of.
    pub(crate) fn op(&self) -> NameOp
        requires { IsCall self.now.call }
        ensures { result ≡ op_of_finish self.now self.now.new }
    {
        let name = self.call.name();
        match self.new {
            Some(value) => NameOp::Put { name, value },
            None => NameOp::Del { name },
        }
    }

    /// The place that the write was given, if it has one.
    pub(crate) fn place(&self) -> Option<u64>
        ensures { result ≡ placed_in (finish_stage self.now) }
    {
        match &self.at {
            FinishAt::Unlock { place } => Some(*place),
            FinishAt::Fence { .. } | FinishAt::Add => None,
        }
    }

    /// The change that its next action counts, if it counts one.
    pub(crate) fn counts(&self) -> Option<Change>
        requires { IsFinish self.now }
        ensures { result ≡ counted (finish_stage self.now) }
    {
        match &self.at {
            FinishAt::Add => Some(self.change()),
            FinishAt::Fence { .. } | FinishAt::Unlock { .. } => None,
        }
    }
}
