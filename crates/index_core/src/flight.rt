//! The call in flight of a party.

ghost use Rattle.std.specs.Prelude.{◌≡◌};

use crate::party::CoreCall;
use call_stages::{Once, Placed, View};
use node_ops::Running;
use pm_words::{Memory, Steps};
use std::marker::Model;
use std::sync::ledger::Ledger;

/// The machine of a party's call in flight, if it has one.
///
/// The room of a machine is some 2 KB, for the words of a node that it splits, merges or lists. So it is kept as a call
/// ends, one for each kind of call, and the next call of that kind begins in its place: nothing is cleared or copied
/// then but the few words of a look-up.
#[derive(Drop)]
pub struct Flight {
    /// The machine of the last call of each kind.
    get: Option<Running>,
    put: Option<Running>,
    del: Option<Running>,
    part: Option<Running>,
    /// The kind of the call in flight, or else of the last one.
    kind: Kind,
    flies: bool,
}

/// The kinds of call that have a machine.
#[derive(Clone, Copy)]
pub enum Kind {
    Get,
    Put,
    Del,
    Part,
}

impl Model for Flight {
    ghost use Rattle.std.specs.Prelude.{Option};
    ghost use Rattle.node_ops.specs.declared.running.Running.{Running};
    ghost use Rattle.index_core.specs.InFlight.{flight_of};

    ghost Value = { Option Running };

    ghost view = { flight_of };
}

impl Flight {
    ghost use Rattle.std.specs.Prelude.{IfSome, IsSome, IsSomeAnd, None, Some, is_some};
    ghost use Rattle.pm_words.specs.Turns.{AdvancesTo, GoesBelow};
    ghost use Rattle.call_stages.specs.Views.{IsView};
    ghost use Rattle.node_ops.specs.Asked.{IsOf};
    ghost use Rattle.node_ops.specs.CallStages.{reply_of};
    ghost use Rattle.node_ops.specs.RunningSteps.{IsRunning, running_left, running_takes, running_turned};
    ghost use Rattle.index_core.specs.Bursts.{BurstsInPlace, BurstsSo, MayBurst};
    ghost use Rattle.index_core.specs.CoreCalls.{MayBegin, machine_of, op_of};
    ghost use Rattle.index_core.specs.PartyStates.{flight_after};

    /// No call is in flight.
    pub fn idle() -> Flight
        ensures { result ≡ None }
    {
        Flight {
            get: None,
            put: None,
            del: None,
            part: None,
            kind: Kind::Get,
            flies: false,
        }
    }

    /// No call is in flight any more.
    pub(crate) fn rests(&mut self)
        ensures { self.new ≡ None }
    {
        self.flies = false;
    }

    /// A call is in flight.
    pub(crate) fn flies(&self) -> bool
        ensures { result ≡ is_some self.now }
    {
        if !self.flies {
            return false;
        }
        match self.kind {
            Kind::Get => self.get.is_some(),
            Kind::Put => self.put.is_some(),
            Kind::Del => self.del.is_some(),
            Kind::Part => self.part.is_some(),
        }
    }

    /// The machine of the call in flight.
    pub(crate) fn running(&self) -> &Running
        requires { IsSome self.now }
        ensures { self.now ≡ Some result.now }
    {
        match self.kind {
            Kind::Get => machine_in(&self.get),
            Kind::Put => machine_in(&self.put),
            Kind::Del => machine_in(&self.del),
            Kind::Part => machine_in(&self.part),
        }
    }

    /// A call begins.
    pub(crate) fn begins(&mut self, view: View, call: CoreCall)
        requires view { IsView view }
        requires begins { MayBegin call }
        ensures flight { self.new ≡ Some (machine_of view call) }
        ensures sound { IsRunning (machine_of view call) }
        ensures op { IsOf (op_of call) (machine_of view call) }
    {
        self.flies = true;
        match call {
            CoreCall::Get { .. } => {
                self.kind = Kind::Get;
                begins_in(&mut self.get, view, &call);
            }
            CoreCall::Put { .. } => {
                self.kind = Kind::Put;
                begins_in(&mut self.put, view, &call);
            }
            CoreCall::Del { .. } => {
                self.kind = Kind::Del;
                begins_in(&mut self.del, view, &call);
            }
            CoreCall::Part { .. } => {
                self.kind = Kind::Part;
                begins_in(&mut self.part, view, &call);
            }
            CoreCall::Recheck { .. } | CoreCall::Turn { .. } => unreachable!(),
        }
    }

    /// Tells the call in flight, in place, the number that its action gave. Where that ends it, none is in flight.
    pub(crate) fn advance(&mut self, got: u64) -> Option<Once<Placed>>
        requires { IsSomeAnd self.old (λ machine. running_takes machine got) }
        ensures flight { IfSome self.old (λ machine. self.new ≡ flight_after (running_turned machine got)) }
        ensures answer { IfSome self.old (λ machine. result ≡ reply_of (running_turned machine got)) }
        ensures fewer { IfSome self.old
            (λ machine. GoesBelow running_left (running_left machine) (running_turned machine got)) }
    {
        let answer = self.told(got);
        if answer.is_some() {
            self.flies = false;
        }
        answer
    }

    /// The call in flight does what it asks for, and goes on so as long as one part of it does, with nothing between.
    /// Where that ends it, none is in flight. `steps` counts the events.
    pub(crate) fn burst<L: Ledger>(
        &mut self,
        memory: &mut Memory,
        steps: &mut Steps<L>,
    ) -> Option<Once<Placed>>
        requires { IsSomeAnd self.old (MayBurst memory.old) }
        ensures { IfSome self.old (λ machine. BurstsSo memory.old memory.new machine steps.old steps.new
            (λ end. (self.new ≡ flight_after end) × (result ≡ reply_of end))) }
    {
        let answer = self.goes_on(memory, steps);
        if answer.is_some() {
            self.flies = false;
        }
        answer
    }

    /// It does so, and leaves the machine in flight, also where it has answered.
    fn goes_on<L: Ledger>(
        &mut self,
        memory: &mut Memory,
        steps: &mut Steps<L>,
    ) -> Option<Once<Placed>>
        requires { IsSomeAnd self.old (MayBurst memory.old) }
        ensures { IfSome self.old (λ machine. IsSomeAnd self.new
            (λ next. BurstsInPlace memory.old memory.new machine next result steps.old steps.new)) }
    {
        match self.kind {
            Kind::Get => burst_in(&mut self.get, memory, steps),
            Kind::Put => burst_in(&mut self.put, memory, steps),
            Kind::Del => burst_in(&mut self.del, memory, steps),
            Kind::Part => burst_in(&mut self.part, memory, steps),
        }
    }

    /// Tells it the number, and leaves the machine in flight, also where it has answered.
    fn told(&mut self, got: u64) -> Option<Once<Placed>>
        requires { IsSomeAnd self.old (λ machine. running_takes machine got) }
        ensures turned { IfSome self.old (λ machine. IsSomeAnd self.new
            (λ next. AdvancesTo (running_turned machine got) next result)) }
        ensures fewer { IfSome self.old
            (λ machine. GoesBelow running_left (running_left machine) (running_turned machine got)) }
    {
        match self.kind {
            Kind::Get => advance_in(&mut self.get, got),
            Kind::Put => advance_in(&mut self.put, got),
            Kind::Del => advance_in(&mut self.del, got),
            Kind::Part => advance_in(&mut self.part, got),
        }
    }
}

ghost use Rattle.std.specs.Prelude.{IfSome, IsSome, IsSomeAnd, IsTrue, Some};
ghost use Rattle.pm_words.specs.Turns.{AdvancesTo, GoesBelow};
ghost use Rattle.call_stages.specs.Views.{IsView};
ghost use Rattle.node_ops.specs.Asked.{IsOf};
ghost use Rattle.node_ops.specs.RunningSteps.{IsRunning, running_left, running_takes, running_turned};
ghost use Rattle.index_core.specs.Bursts.{BurstsInPlace, MayBurst};
ghost use Rattle.index_core.specs.CoreCalls.{MayBegin, machine_of, op_of};

/// A call begins in this room, in the place of the last one where it can.
pub fn begins_in(room: &mut Option<Running>, view: View, call: &CoreCall)
    requires view { IsView view }
    requires begins { MayBegin call.now }
    ensures room { room.new ≡ Some (machine_of view call.now) }
    ensures sound { IsRunning (machine_of view call.now) }
    ensures op { IsOf (op_of call.now) (machine_of view call.now) }
{
    if follows(room, view, call) {
        return;
    }
    makes_room(room, view, call);
}

/// Whether the call begins in the place of the machine that is there.
fn follows(room: &mut Option<Running>, view: View, call: &CoreCall) -> bool
    requires view { IsView view }
    requires begins { MayBegin call.now }
    ensures room { IsTrue result → room.new ≡ Some (machine_of view call.now) }
    ensures sound { IsTrue result → IsRunning (machine_of view call.now) }
    ensures op { IsTrue result → IsOf (op_of call.now) (machine_of view call.now) }
{
    match room {
        Some(machine) => call.follows(machine, view),
        None => false,
    }
}

/// The machine of the call is made anew, in a function of its own, so that no other call clears its room.
fn makes_room(room: &mut Option<Running>, view: View, call: &CoreCall)
    requires view { IsView view }
    requires begins { MayBegin call.now }
    ensures room { room.new ≡ Some (machine_of view call.now) }
    ensures sound { IsRunning (machine_of view call.now) }
    ensures op { IsOf (op_of call.now) (machine_of view call.now) }
{
    *room = Some(call.machine(view));
}

/// The machine in this room.
fn machine_in(room: &Option<Running>) -> &Running
    requires { IsSome room.now }
    ensures { room.now ≡ Some result.now }
{
    match room {
        Some(machine) => machine,
        None => unreachable!(),
    }
}

/// Tells the machine in this room, in place, the number that its action gave.
fn advance_in(room: &mut Option<Running>, got: u64) -> Option<Once<Placed>>
    requires { IsSomeAnd room.old (λ machine. running_takes machine got) }
    ensures turned { IfSome room.old (λ machine. IsSomeAnd room.new
        (λ next. AdvancesTo (running_turned machine got) next result)) }
    ensures fewer { IfSome room.old
        (λ machine. GoesBelow running_left (running_left machine) (running_turned machine got)) }
{
    let Some(machine) = room else { unreachable!() };
    machine.advance(got)
}

/// The machine in this room does what it asks for, in place, and goes on so as long as one part of it does.
fn burst_in<L: Ledger>(
    room: &mut Option<Running>,
    memory: &mut Memory,
    steps: &mut Steps<L>,
) -> Option<Once<Placed>>
    requires { IsSomeAnd room.old (MayBurst memory.old) }
    ensures { IfSome room.old (λ machine. IsSomeAnd room.new
        (λ next. BurstsInPlace memory.old memory.new machine next result steps.old steps.new)) }
{
    let Some(machine) = room else { unreachable!() };
    machine.burst(memory, steps)
}
