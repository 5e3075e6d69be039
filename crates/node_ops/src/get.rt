//! A get: `Looking`, then `Checking`, which loads the version word again. If that is still the one that the walk saw,
//! the get is done, at the clock that was loaded between the two. It takes no lock and changes no word.

ghost use Rattle.std.specs.Prelude.{◌≡◌, ℕ};

use crate::call::Call;
use crate::lookup::{Hit, Hold, Looked, Lookup};
use call_stages::{Once, Placed, View};
use cat_key::Name;
use pm_words::offsets::node;
use pm_words::{Action, Again, Machine, Memory, Steps, Turn};
use std::sync::ledger::Ledger;

/// A get: what a name has, at the clock that was loaded between two loads of its node's version word.
#[derive(Clone, Copy)]
pub enum Get {
    Looking {
        lookup: Lookup,
    },
    /// It loads the version word again.
    Checking {
        call: Call,
        hold: Hold,
        old: Option<u64>,
    },
}

impl Get {
    ghost use Rattle.std.specs.Prelude.{◌≡◌, None};
    ghost use Rattle.call_stages.specs.Views.{IsView};
    ghost use Rattle.node_ops.specs.Calls.{new_call};
    ghost use Rattle.node_ops.specs.GetSteps.{IsGet};
    ghost use Rattle.node_ops.specs.LookupSteps.{starts};

    /// A get of this name.
    pub fn new(view: View, name: &Name) -> Get
        requires { IsView view }
        ensures new { result ≡ Get.Looking (starts (new_call view name.now None)) }
        ensures sound { IsGet result }
    {
        Get::Looking {
            lookup: Lookup::new(Call::new(view, name, None)),
        }
    }

    /// Another get begins in its place.
    pub(crate) fn begins(&mut self, view: View, name: &Name)
        requires { IsView view }
        ensures new { self.new ≡ Get.Looking (starts (new_call view name.now None)) }
        ensures sound { IsGet self.new }
    {
        *self = Get::new(view, name);
    }
}

impl Get {
    ghost use Rattle.std.specs.Prelude.{◌≡◌};
    ghost use Rattle.node_ops.specs.GetSteps.{get_call};

    /// What stays the same while it is made.
    pub(crate) fn call(&self) -> Call
        ensures { result ≡ get_call self.now }
    {
        match self {
            Get::Looking { lookup } => lookup.call,
            Get::Checking { call, .. } => *call,
        }
    }
}

impl Machine for Get {
    ghost use Rattle.node_ops.specs.GetSteps.{IsGet, get_asks, get_turned, get_takes, get_left};

    type Answer = Once<Placed>;

    ghost fits = { IsGet };

    ghost asks = { get_asks };

    ghost turned = { get_turned };

    ghost takes = { get_takes };

    ghost left = { get_left };

    fn action(&self) -> Action {
        Get::action(self)
    }

    fn resume(self, got: u64) -> Turn<Get, Once<Placed>> {
        let mut next = self;
        match next.advance(got) {
            None => Turn::Go(next),
            Some(answer) => Turn::Done(answer),
        }
    }
}

impl Get {
    ghost use Rattle.std.specs.Prelude.{◌≡◌};
    ghost use Rattle.pm_words.specs.declared.action.Action.TheVariants.{Load};
    ghost use Rattle.pm_words.specs.Turns.{AdvancesTo, GoesBelow, turn_of};
    ghost use Rattle.machine_runs.specs.Runs.{Bursts, MayGo};
    ghost use Rattle.pm_words.specs.Offsets.{version_offset};
    ghost use Rattle.node_ops.specs.Calls.{IsCall, call_address};
    ghost use Rattle.node_ops.specs.LookupSteps.{lookup_turned};
    ghost use Rattle.node_ops.specs.GetSteps.{IsGet, checked, get_asks, get_left, get_looked, get_takes, get_turned};

    /// The action that it asks for.
    #[inline(always)]
    pub(crate) fn action(&self) -> Action
        requires { IsGet self.now }
        ensures { result ≡ get_asks self.now }
    {
        match self {
            Get::Looking { lookup } => lookup.action(),
            Get::Checking { call, .. } => Get::checks(call),
        }
    }

    /// Tells it in place the number that its action gave. It goes on, or is done where there is an answer.
    #[inline(always)]
    pub(crate) fn advance(&mut self, got: u64) -> Option<Once<Placed>>
        requires { get_takes self.old got }
        ensures turned { AdvancesTo (get_turned self.old got) self.new result }
        ensures fewer { GoesBelow get_left (get_left self.old) (get_turned self.old got) }
    {
        match self {
            Get::Looking { .. } => self.looked(got),
            Get::Checking { call, hold, old } => Some(Get::checked(call, *hold, *old, got)),
        }
    }

    /// Does what it asks for, and goes on so as long as its floor or its walk does, and from there on to its end, with
    /// nothing between. It goes on, or is done where there is an answer. `steps` counts the events.
    pub(crate) fn burst<L: Ledger>(
        &mut self,
        memory: &mut Memory,
        steps: &mut Steps<L>,
    ) -> Option<Once<Placed>>
        requires { MayGo get_asks get_turned get_left get_takes memory.old.layout memory.old.words self.old }
        ensures { Bursts get_asks get_turned get_left memory.old memory.new self.old (turn_of self.new result) steps.old
            steps.new }
    {
        let Get::Looking { lookup } = self else {
            let got = memory.act(self.action(), steps);
            return self.advance(got);
        };
        let found = match lookup.burst(memory, steps)? {
            Looked::Early(answer) => return Some(answer),
            Looked::Found(found) => found,
        };
        let call = &lookup.call;
        let again = memory.act(Get::checks(call), steps);
        Some(Get::checked(call, found.hold, Hit::value_of(found.hit), again))
    }

    /// Where it looks, it has one number more, and once it has looked it checks.
    #[inline(always)]
    fn looked(&mut self, got: u64) -> Option<Once<Placed>>
        requires { get_takes self.old got }
        ensures turned { (lookup : Lookup) → self.old ≡ Get.Looking lookup
            → AdvancesTo (get_looked lookup.call (lookup_turned lookup got)) self.new result }
        ensures fewer { (lookup : Lookup) → self.old ≡ Get.Looking lookup
            → GoesBelow get_left (get_left self.old) (get_looked lookup.call (lookup_turned lookup got)) }
    {
        let Get::Looking { lookup } = self else {
            return None;
        };
        match lookup.advance(got)? {
            Looked::Early(answer) => Some(answer),
            Looked::Found(found) => {
                *self = Get::Checking {
                    call: lookup.call,
                    hold: found.hold,
                    old: Hit::value_of(found.hit),
                };
                None
            }
        }
    }

    /// It loads the version word again.
    fn checks(call: &Call) -> Action
        requires { IsCall call.now }
        ensures { result ≡ Load (call_address call.now version_offset) }
    {
        Action::Load(call.address(node::VERSION))
    }

    /// Its answer, once it has loaded the version word again.
    fn checked(call: &Call, hold: Hold, old: Option<u64>, got: u64) -> Once<Placed>
        ensures { result ≡ checked call.now hold old got }
    {
        if got == hold.locked {
            Once::Done(Placed {
                old,
                place: hold.clock,
                hops: call.hops,
            })
        } else {
            Once::Again(Again::Moved {
                node: call.node,
                first: hold.locked,
                second: got,
            })
        }
    }
}
