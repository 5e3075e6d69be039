//! Any call in flight, as one machine.

ghost use Rattle.std.specs.Prelude.{◌≡◌, ℕ};

use crate::call::adds;
use crate::del::Del;
use crate::get::Get;
use crate::part::{Part, PartWords};
use crate::put::Put;
use call_stages::{Once, Placed, View};
use cat_history::{Change, NameOp};
use cat_key::Name;
use pm_words::{Action, Machine, Memory, Steps, Turn};
use std::sync::ledger::Ledger;

/// Any call in flight.
#[derive(Clone, Copy)]
pub enum Running {
    Getting(Get),
    Putting(Put),
    Deleting(Del),
    /// A part of a range scan: to the law of the index a get of its low name.
    Parting(Part),
}

impl Machine for Running {
    ghost use Rattle.node_ops.specs.RunningSteps.{IsRunning, running_asks, running_turned, running_takes, running_left};

    type Answer = Once<Placed>;

    ghost fits = { IsRunning };

    ghost asks = { running_asks };

    ghost turned = { running_turned };

    ghost takes = { running_takes };

    ghost left = { running_left };

    #[inline(always)]
    fn action(&self) -> Action {
        match self {
            Running::Getting(get) => get.action(),
            Running::Putting(put) => put.action(),
            Running::Deleting(del) => del.action(),
            Running::Parting(part) => part.action(),
        }
    }

    fn resume(self, got: u64) -> Turn<Running, Once<Placed>> {
        let mut next = self;
        match next.advance(got) {
            None => Turn::Go(next),
            Some(answer) => Turn::Done(answer),
        }
    }
}

impl Running {
    ghost use Rattle.std.specs.Prelude.{◌≡◌, ◌^◌, ◌≤◌, IsTrue, None, Some};
    ghost use Rattle.call_stages.specs.Views.{IsView};
    ghost use Rattle.node_ops.specs.declared.get.Get.TheVariants as Get;
    ghost use Rattle.node_ops.specs.declared.put.Put.TheVariants as Put;
    ghost use Rattle.node_ops.specs.declared.del.Del.TheVariants as Del;
    ghost use Rattle.node_ops.specs.declared.single_put.SinglePut.TheVariants as SinglePut;
    ghost use Rattle.node_ops.specs.declared.single_del.SingleDel.TheVariants as SingleDel;
    ghost use Rattle.node_ops.specs.Calls.{new_call};
    ghost use Rattle.node_ops.specs.LookupSteps.{starts};
    ghost use Rattle.node_ops.specs.RunningSteps.{IsRunning};

    /// A get begins in the place of another one. It is told whether it does: where this is no get, it doesn't.
    pub fn begins_get(&mut self, view: View, name: &Name) -> bool
        requires { IsView view }
        ensures new { IsTrue result →
            self.new ≡ Running.Getting (Get.Looking (starts (new_call view name.now None))) }
        ensures sound { IsTrue result → IsRunning self.new }
    {
        let Running::Getting(get) = self else {
            return false;
        };
        get.begins(view, name);
        true
    }

    /// A put begins in the place of another one that works on one node. It is told whether it does.
    pub fn begins_put(&mut self, view: View, name: &Name, value: u64, limit: u64) -> bool
        requires view { IsView view }
        requires limit { limit ≤ 2 ^ 62 }
        ensures new { IsTrue result → self.new ≡ Running.Putting
            (Put.Single (SinglePut.Looking (starts (new_call view name.now (Some limit))) value)) }
        ensures sound { IsTrue result → IsRunning self.new }
    {
        match self {
            Running::Putting(put) => put.begins(view, name, value, limit),
            _ => false,
        }
    }

    /// A delete begins in the place of another one that works on one node. It is told whether it does.
    pub fn begins_del(&mut self, view: View, name: &Name, limit: u64) -> bool
        requires view { IsView view }
        requires limit { limit ≤ 2 ^ 62 }
        ensures new { IsTrue result → self.new ≡ Running.Deleting
            (Del.Single (SingleDel.Looking (starts (new_call view name.now (Some limit))))) }
        ensures sound { IsTrue result → IsRunning self.new }
    {
        match self {
            Running::Deleting(del) => del.begins(view, name, limit),
            _ => false,
        }
    }
}

impl Running {
    ghost use Rattle.std.specs.Prelude.{◌≡◌, ◌↔◌, IsFalse, IsSome, IsTrue};
    ghost use Rattle.call_stages.specs.Stages.{counted, placed_in};
    ghost use Rattle.pm_words.specs.Turns.{AdvancesTo, GoesBelow, turn_of};
    ghost use Rattle.machine_runs.specs.Runs.{AddsNothing, Bursts, MayGo};
    ghost use Rattle.node_ops.specs.PartSteps.{part_left, part_takes, part_turned};
    ghost use Rattle.node_ops.specs.RunningSteps.{IsRunning, running_call, running_left, running_takes, running_turned};
    ghost use Rattle.node_ops.specs.RunningSteps.{count_in, listed_in, running_asks, wrapped_part};
    ghost use Rattle.node_ops.specs.CallStages.{stage_of};
    ghost use Rattle.node_ops.specs.Asked.{op_in};

    /// Tells it in place the number that its action gave. It goes on, or is done where there is an answer.
    #[inline(always)]
    pub fn advance(&mut self, got: u64) -> Option<Once<Placed>>
        requires { running_takes self.old got }
        ensures turned { AdvancesTo (running_turned self.old got) self.new result }
        ensures fewer { GoesBelow running_left (running_left self.old) (running_turned self.old got) }
    {
        match self {
            Running::Getting(get) => get.advance(got),
            Running::Putting(put) => put.advance(got),
            Running::Deleting(del) => del.advance(got),
            Running::Parting(part) => Running::advance_part(part, got),
        }
    }

    /// Does what it asks for, and goes on so as long as one part of it does, with nothing between. It goes on, or is
    /// done where there is an answer. `steps` counts the events.
    pub fn burst<L: Ledger>(
        &mut self,
        memory: &mut Memory,
        steps: &mut Steps<L>,
    ) -> Option<Once<Placed>>
        requires may { MayGo running_asks running_turned running_left running_takes memory.old.layout memory.old.words
            self.old }
        requires adds { AddsNothing (running_asks self.old) }
        ensures { Bursts running_asks running_turned running_left memory.old memory.new self.old
            (turn_of self.new result) steps.old steps.new }
    {
        match self {
            Running::Getting(get) => get.burst(memory, steps),
            Running::Putting(put) => put.burst(memory, steps),
            Running::Deleting(del) => del.burst(memory, steps),
            Running::Parting(_) => {
                let got = memory.act(self.action(), steps);
                self.advance(got)
            }
        }
    }

    /// Tells it to a part, in a function of its own, so that no other turn clears the room of what a part tells.
    fn advance_part(part: &mut Part, got: u64) -> Option<Once<Placed>>
        requires { part_takes part.old got }
        ensures turned { AdvancesTo (wrapped_part (part_turned part.old got)) (Running.Parting part.new) result }
        ensures fewer { GoesBelow running_left (part_left part.old) (wrapped_part (part_turned part.old got)) }
    {
        part.advance_placed(got)
    }

    /// The clock at which the call is refused, if there is one.
    pub fn limit(&self) -> Option<u64>
        ensures { result ≡ (running_call self.now).limit }
    {
        let call = match self {
            Running::Getting(get) => get.call(),
            Running::Putting(put) => put.call(),
            Running::Deleting(del) => del.call(),
            Running::Parting(part) => part.call(),
        };
        call.limit
    }

    /// The op that the call is of.
    pub fn op(&self) -> NameOp
        requires { IsRunning self.now }
        ensures { result ≡ op_in self.now }
    {
        match self {
            Running::Getting(get) => NameOp::Get {
                name: get.call().name(),
            },
            Running::Putting(put) => put.op(),
            Running::Deleting(del) => del.op(),
            Running::Parting(part) => NameOp::Get {
                name: part.call().name(),
            },
        }
    }

    /// How many names it lists at most, if it is a part of a range scan.
    pub fn count(&self) -> Option<u64>
        ensures { result ≡ count_in self.now }
    {
        match self {
            Running::Parting(part) => Some(part.count()),
            _ => None,
        }
    }

    /// What it tells, if it is a part of a range scan that gives its node back next.
    pub fn listed(&self) -> Option<PartWords>
        requires { IsRunning self.now }
        ensures { result ≡ listed_in self.now }
    {
        match self {
            Running::Parting(part) => part.listed(),
            _ => None,
        }
    }

    /// It is a part of a range scan that gives its node back next.
    pub fn has_listed(&self) -> bool
        ensures { IsTrue result ↔ IsSome (listed_in self.now) }
    {
        match self {
            Running::Parting(part) => part.has_listed(),
            _ => false,
        }
    }

    /// The place that its write was given, if it has one.
    pub fn place(&self) -> Option<u64>
        ensures { result ≡ placed_in (stage_of self.now) }
    {
        match self {
            Running::Putting(put) => put.place(),
            Running::Deleting(del) => del.place(),
            Running::Getting(_) | Running::Parting(_) => None,
        }
    }

    /// Whether its next action counts its change in the clock.
    pub fn is_counted_next(&self) -> bool
        requires { IsRunning self.now }
        ensures { IsFalse result ↔ AddsNothing (running_asks self.now) }
    {
        match self {
            Running::Getting(_) => false,
            Running::Putting(put) => put.is_counted_next(),
            Running::Deleting(del) => adds(del.action()),
            Running::Parting(part) => adds(part.action()),
        }
    }

    /// The change that its next action counts in the clock, if it counts one.
    pub fn counts(&self) -> Option<Change>
        requires { IsRunning self.now }
        ensures { result ≡ counted (stage_of self.now) }
    {
        match self {
            Running::Putting(put) => put.counts(),
            Running::Deleting(del) => del.counts(),
            Running::Getting(_) | Running::Parting(_) => None,
        }
    }
}
