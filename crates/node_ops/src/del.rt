//! A delete: while it works on one node it is a `SingleDel`. Once its change is counted, and where it has a log line,
//! it merges the next node into its own (`Merging`), and is answered then, whether it merged or had to leave that node
//! alone.

ghost use Rattle.std.specs.Prelude.{◌≡◌, ℕ};

use crate::call::Call;
use crate::in_place::tell;
use crate::lookup::{Hold, Lookup};
use crate::single_del::{CountedDel, SingleDel, SingleDelDone};
use call_stages::{Once, Placed, View};
use cat_history::{Change, NameOp};
use cat_key::Name;
use pm_words::{Action, Machine, Memory, Steps, Turn};
use split_merge::Merge;
use std::sync::ledger::Ledger;

/// A delete: it takes a name out of its node, and answers what the name had.
#[derive(Clone, Copy)]
pub enum Del {
    Single(SingleDel),
    /// Its change is counted at this place: it merges the next node into its own.
    Merging {
        call: Call,
        hold: Hold,
        old: Option<u64>,
        place: u64,
        merge: Merge,
    },
}

impl Del {
    ghost use Rattle.std.specs.Prelude.{◌^◌, ◌≤◌, IsTrue, Some};
    ghost use Rattle.call_stages.specs.Views.{IsView};
    ghost use Rattle.node_ops.specs.declared.single_del.SingleDel.TheVariants as SingleDel;
    ghost use Rattle.node_ops.specs.Calls.{new_call};
    ghost use Rattle.node_ops.specs.LookupSteps.{starts};
    ghost use Rattle.node_ops.specs.DelSteps.{IsCounted, IsDel, del_merges};

    /// A delete of this name, which is refused where the clock has reached the limit.
    pub fn new(view: View, name: &Name, limit: u64) -> Del
        requires view { IsView view }
        requires limit { limit ≤ 2 ^ 62 }
        ensures new { result ≡ Del.Single (SingleDel.Looking (starts (new_call view name.now (Some limit)))) }
        ensures sound { IsDel result }
    {
        Del::Single(SingleDel::Looking {
            lookup: Lookup::new(Call::new(view, name, Some(limit))),
        })
    }

    /// Another delete begins in its place, and writes no room of a merge. One that merges stays as it is, and it is
    /// told that none begins.
    pub(crate) fn begins(&mut self, view: View, name: &Name, limit: u64) -> bool
        requires view { IsView view }
        requires limit { limit ≤ 2 ^ 62 }
        ensures new { IsTrue result →
            self.new ≡ Del.Single (SingleDel.Looking (starts (new_call view name.now (Some limit)))) }
        ensures sound { IsTrue result → IsDel self.new }
    {
        let Del::Single(single) = self else {
            return false;
        };
        *single = SingleDel::Looking {
            lookup: Lookup::new(Call::new(view, name, Some(limit))),
        };
        true
    }

    /// It merges, in a function of its own, so that no other turn clears the room of a merge.
    fn merges(&mut self, counted: CountedDel)
        requires { IsCounted counted }
        ensures { self.new ≡ del_merges counted }
    {
        let CountedDel {
            finish,
            place,
            line,
        } = counted;
        *self = Del::Merging {
            call: finish.call,
            hold: finish.hold,
            old: finish.old,
            place,
            merge: Merge::new(finish.call.view, finish.call.node, finish.hold.locked, line),
        };
    }
}

impl Del {
    ghost use Rattle.call_stages.specs.Stages.{counted, placed_in};
    ghost use Rattle.node_ops.specs.Asked.{del_op};
    ghost use Rattle.node_ops.specs.CallStages.{del_stage};
    ghost use Rattle.node_ops.specs.DelSteps.{IsDel, del_asks, del_call};

    /// What stays the same while it is made.
    pub(crate) fn call(&self) -> Call
        ensures { result ≡ del_call self.now }
    {
        match self {
            Del::Single(single) => single.call(),
            Del::Merging { call, .. } => *call,
        }
    }

    /// The op that it is of.
    pub(crate) fn op(&self) -> NameOp
        requires { IsDel self.now }
        ensures { result ≡ del_op self.now }
    {
        match self {
            Del::Single(single) => single.op(),
            Del::Merging { call, .. } => NameOp::Del { name: call.name() },
        }
    }

    /// The action that it asks for.
    #[inline(always)]
    pub(crate) fn action(&self) -> Action
        requires { IsDel self.now }
        ensures { result ≡ del_asks self.now }
    {
        match self {
            Del::Single(single) => single.action(),
            Del::Merging { merge, .. } => merge.action(),
        }
    }

    /// The place that its write was given, if it has one.
    pub(crate) fn place(&self) -> Option<u64>
        ensures { result ≡ placed_in (del_stage self.now) }
    {
        match self {
            Del::Single(single) => single.place(),
            Del::Merging { place, .. } => Some(*place),
        }
    }

    /// The change that its next action counts in the clock, if it counts one.
    pub(crate) fn counts(&self) -> Option<Change>
        requires { IsDel self.now }
        ensures { result ≡ counted (del_stage self.now) }
    {
        match self {
            Del::Single(single) => single.counts(),
            Del::Merging { .. } => None,
        }
    }
}

impl Machine for Del {
    ghost use Rattle.node_ops.specs.DelSteps.{IsDel, del_asks, del_turned, del_takes, del_left};

    type Answer = Once<Placed>;

    ghost fits = { IsDel };

    ghost asks = { del_asks };

    ghost turned = { del_turned };

    ghost takes = { del_takes };

    ghost left = { del_left };

    fn action(&self) -> Action {
        Del::action(self)
    }

    fn resume(self, got: u64) -> Turn<Del, Once<Placed>> {
        let mut next = self;
        match next.advance(got) {
            None => Turn::Go(next),
            Some(answer) => Turn::Done(answer),
        }
    }
}

impl Del {
    ghost use Rattle.pm_words.specs.Turns.{AdvancesTo, GoesBelow, turn_of};
    ghost use Rattle.machine_runs.specs.Runs.{AddsNothing, Bursts, MayGo};
    ghost use Rattle.node_ops.specs.DelSteps.{del_asks, del_left, del_takes, del_turned};

    /// Tells it in place the number that its action gave. It goes on, or is done where there is an answer.
    #[inline(always)]
    pub(crate) fn advance(&mut self, got: u64) -> Option<Once<Placed>>
        requires { del_takes self.old got }
        ensures turned { AdvancesTo (del_turned self.old got) self.new result }
        ensures fewer { GoesBelow del_left (del_left self.old) (del_turned self.old got) }
    {
        match self {
            Del::Single(single) => match single.advance(got)? {
                SingleDelDone::Answered(answer) => Some(answer),
                SingleDelDone::Counted(counted) => {
                    self.merges(counted);
                    None
                }
            },
            Del::Merging {
                call,
                old,
                place,
                merge,
                ..
            } => {
                let (old, place, hops) = (*old, *place, call.hops);
                tell(merge, got)?;
                Some(Once::Done(Placed { old, place, hops }))
            }
        }
    }

    /// Does what it asks for, and goes on so as long as one part of it does, with nothing between. It goes on, or is
    /// done where there is an answer. `steps` counts the events.
    pub(crate) fn burst<L: Ledger>(
        &mut self,
        memory: &mut Memory,
        steps: &mut Steps<L>,
    ) -> Option<Once<Placed>>
        requires may { MayGo del_asks del_turned del_left del_takes memory.old.layout memory.old.words self.old }
        requires adds { AddsNothing (del_asks self.old) }
        ensures { Bursts del_asks del_turned del_left memory.old memory.new self.old (turn_of self.new result) steps.old
            steps.new }
    {
        let Del::Single(single) = self else {
            let got = memory.act(self.action(), steps);
            return self.advance(got);
        };
        match single.burst(memory, steps)? {
            SingleDelDone::Answered(answer) => Some(answer),
            SingleDelDone::Counted(counted) => {
                self.merges(counted);
                None
            }
        }
    }
}
