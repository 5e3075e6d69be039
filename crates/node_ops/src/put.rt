//! A put: while it works on one node it is a `SinglePut`. Where that node has no clear slot and no slot with the name,
//! it goes on in `Splitting`, after which the call is to be made again, or was refused.

ghost use Rattle.std.specs.Prelude.{◌≡◌, ℕ};

use crate::call::{Call, adds};
use crate::lookup::{Hold, Lookup};
use crate::single_put::{FullNode, SinglePut, SinglePutDone};
use call_stages::{Once, Placed, View};
use cat_history::{Change, NameOp};
use cat_key::Name;
use pm_words::{Action, Again, Machine, Memory, Steps, Turn};
use split_merge::{Split, SplitDone};
use std::sync::ledger::Ledger;

/// A put: it gives a name a value, and answers what the name had.
#[derive(Clone, Copy)]
pub enum Put {
    Single(SinglePut),
    /// No slot is clear and none has the name: it splits the node.
    Splitting {
        call: Call,
        hold: Hold,
        bitmap: u64,
        value: u64,
        split: Split,
    },
}

impl Put {
    ghost use Rattle.std.specs.Prelude.{◌^◌, ◌≤◌, IsTrue, Some};
    ghost use Rattle.call_stages.specs.Views.{IsView};
    ghost use Rattle.node_ops.specs.declared.single_put.SinglePut.TheVariants as SinglePut;
    ghost use Rattle.node_ops.specs.Calls.{new_call};
    ghost use Rattle.node_ops.specs.LookupSteps.{starts};
    ghost use Rattle.node_ops.specs.PutSteps.{IsFullNode, IsPut, put_splits, split_done};

    /// A put of this value under this name, which is refused where the clock has reached the limit.
    pub fn new(view: View, name: &Name, value: u64, limit: u64) -> Put
        requires view { IsView view }
        requires limit { limit ≤ 2 ^ 62 }
        ensures new { result ≡ Put.Single (SinglePut.Looking (starts (new_call view name.now (Some limit))) value) }
        ensures sound { IsPut result }
    {
        Put::Single(SinglePut::Looking {
            lookup: Lookup::new(Call::new(view, name, Some(limit))),
            value,
        })
    }

    /// Another put begins in its place, and writes no room of a split. One that splits its node stays as it is, and it
    /// is told that none begins.
    pub(crate) fn begins(&mut self, view: View, name: &Name, value: u64, limit: u64) -> bool
        requires view { IsView view }
        requires limit { limit ≤ 2 ^ 62 }
        ensures new { IsTrue result →
            self.new ≡ Put.Single (SinglePut.Looking (starts (new_call view name.now (Some limit))) value) }
        ensures sound { IsTrue result → IsPut self.new }
    {
        let Put::Single(single) = self else {
            return false;
        };
        *single = SinglePut::Looking {
            lookup: Lookup::new(Call::new(view, name, Some(limit))),
            value,
        };
        true
    }

    /// It splits its node, in a function of its own, so that no other turn clears the room of a split.
    fn splits(&mut self, full: FullNode)
        requires { IsFullNode full }
        ensures { self.new ≡ put_splits full }
    {
        let FullNode {
            call,
            hold,
            bitmap,
            value,
        } = full;
        *self = Put::Splitting {
            call,
            hold,
            bitmap,
            value,
            split: Split::new(call.view, call.node, hold.locked),
        };
    }

    /// Why the call is to be made again, once its split has ended.
    fn split_done(node: u64, done: SplitDone) -> Again
        ensures { result ≡ split_done node done }
    {
        match done {
            SplitDone::Done { .. } => Again::NeedsSplit { node },
            SplitDone::Again(why) => why,
        }
    }
}

impl Put {
    ghost use Rattle.std.specs.Prelude.{◌↔◌, IsFalse};
    ghost use Rattle.call_stages.specs.Stages.{counted, placed_in};
    ghost use Rattle.machine_runs.specs.Runs.{AddsNothing};
    ghost use Rattle.node_ops.specs.PutSteps.{IsPut, put_asks, put_call};
    ghost use Rattle.node_ops.specs.Asked.{put_op};
    ghost use Rattle.node_ops.specs.CallStages.{put_stage};

    /// What stays the same while it is made.
    pub(crate) fn call(&self) -> Call
        ensures { result ≡ put_call self.now }
    {
        match self {
            Put::Single(single) => single.call(),
            Put::Splitting { call, .. } => *call,
        }
    }

    /// The op that it is of.
    pub(crate) fn op(&self) -> NameOp
        requires { IsPut self.now }
        ensures { result ≡ put_op self.now }
    {
        match self {
            Put::Single(single) => single.op(),
            Put::Splitting { call, value, .. } => NameOp::Put {
                name: call.name(),
                value: *value,
            },
        }
    }

    /// The action that it asks for.
    #[inline(always)]
    pub(crate) fn action(&self) -> Action
        requires { IsPut self.now }
        ensures { result ≡ put_asks self.now }
    {
        match self {
            Put::Single(single) => single.action(),
            Put::Splitting { split, .. } => split.action(),
        }
    }

    /// The place that its write was given, if it has one.
    pub(crate) fn place(&self) -> Option<u64>
        ensures { result ≡ placed_in (put_stage self.now) }
    {
        match self {
            Put::Single(single) => single.place(),
            Put::Splitting { .. } => None,
        }
    }

    /// Whether its next action counts its change in the clock.
    pub(crate) fn is_counted_next(&self) -> bool
        requires { IsPut self.now }
        ensures { IsFalse result ↔ AddsNothing (put_asks self.now) }
    {
        match self {
            Put::Single(single) => single.is_counted_next(),
            Put::Splitting { split, .. } => adds(split.action()),
        }
    }

    /// The change that its next action counts in the clock, if it counts one.
    pub(crate) fn counts(&self) -> Option<Change>
        requires { IsPut self.now }
        ensures { result ≡ counted (put_stage self.now) }
    {
        match self {
            Put::Single(single) => single.counts(),
            Put::Splitting { .. } => None,
        }
    }
}

impl Machine for Put {
    ghost use Rattle.node_ops.specs.PutSteps.{IsPut, put_asks, put_turned, put_takes, put_left};

    type Answer = Once<Placed>;

    ghost fits = { IsPut };

    ghost asks = { put_asks };

    ghost turned = { put_turned };

    ghost takes = { put_takes };

    ghost left = { put_left };

    fn action(&self) -> Action {
        Put::action(self)
    }

    fn resume(self, got: u64) -> Turn<Put, Once<Placed>> {
        let mut next = self;
        match next.advance(got) {
            None => Turn::Go(next),
            Some(answer) => Turn::Done(answer),
        }
    }
}

impl Put {
    ghost use Rattle.pm_words.specs.Turns.{AdvancesTo, GoesBelow, turn_of};
    ghost use Rattle.machine_runs.specs.Runs.{AddsNothing, Bursts, MayGo};
    ghost use Rattle.node_ops.specs.PutSteps.{put_asks, put_left, put_takes, put_turned};

    /// Tells it in place the number that its action gave. It goes on, or is done where there is an answer.
    #[inline(always)]
    pub(crate) fn advance(&mut self, got: u64) -> Option<Once<Placed>>
        requires { put_takes self.old got }
        ensures turned { AdvancesTo (put_turned self.old got) self.new result }
        ensures fewer { GoesBelow put_left (put_left self.old) (put_turned self.old got) }
    {
        match self {
            Put::Single(single) => match single.advance(got)? {
                SinglePutDone::Answered(answer) => Some(answer),
                SinglePutDone::Full(full) => {
                    self.splits(full);
                    None
                }
            },
            Put::Splitting { call, split, .. } => {
                let done = split.advance(got)?;
                Some(Once::Again(Put::split_done(call.node, done)))
            }
        }
    }

    /// Does what it asks for, and goes on so as long as one part of it does, with nothing between. It goes on, or is
    /// done where there is an answer. `steps` counts the events.
    pub(crate) fn burst<L: Ledger>(
        &mut self,
        memory: &mut Memory,
        steps: &mut Steps<L>,
    ) -> Option<Once<Placed>>
        requires may { MayGo put_asks put_turned put_left put_takes memory.old.layout memory.old.words self.old }
        requires adds { AddsNothing (put_asks self.old) }
        ensures { Bursts put_asks put_turned put_left memory.old memory.new self.old (turn_of self.new result) steps.old
            steps.new }
    {
        let Put::Single(single) = self else {
            let got = memory.act(self.action(), steps);
            return self.advance(got);
        };
        match single.burst(memory, steps)? {
            SinglePutDone::Answered(answer) => Some(answer),
            SinglePutDone::Full(full) => {
                self.splits(full);
                None
            }
        }
    }
}
