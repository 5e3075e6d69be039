//! The parties of the index: what they call, what they have in flight, and what they are answered.

ghost use Rattle.std.specs.Prelude.{◌≡◌, IfOk};
ghost use Rattle.index_core.specs.PartyStates.{idle_states};
ghost use Rattle.index_core.specs.Lone.{lacks_line, lacks_node, needs_split};

use crate::flight::Flight;
use call_stages::{Once, Placed, View};
use cat_key::Name;
use node_ops::{Part, PartWords, Recheck, Same};
use pm_words::{Again, Machine, Memory, NoMemory, Steps, Turn};
use std::alloc::Global;
use std::sync::ledger::Ledger;
use updater::{MakeTurn, TurnReply, Turned};

/// What a party calls.
#[derive(Clone, Copy)]
pub enum CoreCall {
    /// Refused where the clock, loaded under the lock of the name's node, has reached `limit`.
    Put { name: Name, value: u64, limit: u64 },
    Get { name: Name },
    /// Refused as a put is.
    Del { name: Name, limit: u64 },
    /// Lists the first `count` names from the low one on, of those that the low one's node has.
    Part { low: Name, count: u64 },
    /// Tells whether the node's version word is still this one, which a part of a scan has told.
    Recheck { node: u64, version: u64 },
    /// A turn of the updater, which gives merged nodes the stamp, and makes those FREE whose stamp is at most
    /// `release`.
    Turn { stamp: u64, release: u64 },
}

/// A recheck in flight.
#[derive(Clone, Copy)]
pub struct Rechecking {
    /// How long the history was as it began.
    pub since: u64,
    pub machine: Recheck,
}

/// A party and its call in flight, if it has one.
#[derive(Drop)]
pub struct PartyState {
    /// The party's number.
    pub caller: u64,
    /// How many of its calls on a name were answered, without single tries that were turned back. It is the index of
    /// its call in flight, and between two calls that of its next one.
    pub index: u64,
    /// How long the history was as its call on a name in flight, or else its last one, began.
    pub since: u64,
    /// The machine that makes its call on a name in flight.
    pub machine: Flight,
    /// Its turn of the updater in flight.
    pub turn: Option<MakeTurn>,
    /// Its recheck in flight.
    pub recheck: Option<Rechecking>,
}

/// What a call is answered.
#[derive(Clone, Copy)]
pub enum CoreReply {
    /// The answer of one try of a put, a get or a delete.
    Placed(Once<Placed>),
    /// The answer of one try of a part of a range scan.
    Part(Once<PartWords>),
    /// The answer of a recheck.
    Same(Once<Same>),
    /// The answer of a turn of the updater.
    Turn(TurnReply),
}

/// What one step comes to.
#[derive(Clone, Copy)]
pub enum Stepped {
    Going,
    Answered(CoreReply),
}

/// The answer of a call that is made with no other in flight.
#[derive(Clone, Copy)]
pub enum Whole {
    Placed(Placed),
    /// What a part of a range scan lists.
    Part(PartWords),
    /// A recheck found the node's version word as it was handed in, at this place.
    Same { place: u64 },
    /// What a turn of the updater has done: alone it is never held back.
    Turned(Turned),
    /// A put found no room: the map lacks the name, its node has as many names as slots, no FREE node can be locked,
    /// and no turn of the updater would make one FREE.
    Full,
    /// The clock had reached the call's limit.
    Spent { clock: u64 },
    /// No more locks can be taken of the node in this run.
    Worn { node: u64, word: u64 },
}

/// What a whole call comes to within a budget of events.
#[derive(Clone, Copy)]
pub enum Within {
    Answered(Whole),
    /// The budget was used up before an event that the call still had to make. It stays in flight.
    Cut,
    /// There was no budget, and nothing was done.
    Unstarted,
}

/// The party has a call in flight already.
#[derive(Clone, Copy, PartialEq, Eq, Debug)]
pub struct InFlight;

impl Whole {
    ghost use Rattle.std.specs.Prelude.{◌≡◌};
    ghost use Rattle.index_core.specs.Lone.{part_whole, whole_of};

    /// A call that is alone, and made again where it split, is turned back for want of room only.
    pub(crate) fn of(answer: Once<Placed>) -> Whole
        ensures { result ≡ whole_of answer }
    {
        match answer {
            Once::Done(placed) => Whole::Placed(placed),
            Once::Spent { clock } => Whole::Spent { clock },
            Once::Worn { node, word } => Whole::Worn { node, word },
            Once::Again(_) => Whole::Full,
        }
    }

    /// A part of a scan that is alone is `Done`.
    pub(crate) fn of_part(answer: Once<PartWords>) -> Whole
        ensures { result ≡ part_whole answer }
    {
        match answer {
            Once::Done(words) => Whole::Part(words),
            Once::Spent { clock } => Whole::Spent { clock },
            Once::Worn { node, word } => Whole::Worn { node, word },
            Once::Again(_) => Whole::Full,
        }
    }
}

impl CoreReply {
    ghost use Rattle.std.specs.Prelude.{◌≡◌, IsSome, None};
    ghost use Rattle.node_ops.specs.PartSteps.{IsEarly};
    ghost use Rattle.index_core.specs.PartyStates.{reply_with};

    /// The answer of a call, which is a part of a scan where it has a count, and lists names where it took place.
    pub(crate) fn of(
        count: Option<u64>,
        listed: Option<PartWords>,
        answer: Once<Placed>,
    ) -> CoreReply
        requires { IsSome count → listed ≡ None → IsEarly answer }
        ensures { result ≡ reply_with count listed answer }
    {
        if count.is_none() {
            return CoreReply::Placed(answer);
        }
        CoreReply::Part(match (listed, answer) {
            (Some(words), Once::Done(_)) => Once::Done(words),
            _ => Part::early(answer),
        })
    }
}

impl PartyState {
    ghost use Rattle.std.specs.Prelude.{◌≡◌, IfSome, IsSomeAnd};
    ghost use Rattle.pm_words.specs.Turns.{GoesBelow};
    ghost use Rattle.call_stages.specs.Views.{IsView};
    ghost use Rattle.node_ops.specs.Asked.{IsOf};
    ghost use Rattle.node_ops.specs.CallStages.{reply_of};
    ghost use Rattle.node_ops.specs.RunningSteps.{IsRunning, running_left, running_takes, running_turned};
    ghost use Rattle.index_core.specs.Bursts.{BurstsSo, MayBurst};
    ghost use Rattle.index_core.specs.CoreCalls.{MayBegin, machine_of, op_of};
    ghost use Rattle.index_core.specs.PartyStates.{idle_state, is_busy, state_with, state_after, state_counted};
    ghost use Rattle.index_core.specs.PartyStates.{index_after};

    /// A party that has made no call.
    pub(crate) fn idle(caller: u64) -> PartyState
        ensures { result ≡ idle_state caller }
    {
        PartyState {
            caller,
            index: 0,
            since: 0,
            machine: Flight::idle(),
            turn: None,
            recheck: None,
        }
    }

    /// It has made no call, as the party with this number.
    pub(crate) fn begins_anew(&mut self, caller: u64)
        ensures { self.new ≡ idle_state caller }
    {
        self.caller = caller;
        self.index = 0;
        self.since = 0;
        self.machine.rests();
        self.turn = None;
        self.recheck = None;
    }

    /// Its last call isn't answered.
    pub(crate) fn is_busy(&self) -> bool
        ensures { result ≡ is_busy self.now }
    {
        self.machine.flies() || self.turn.is_some() || self.recheck.is_some()
    }

    /// It begins a call, at this length of the history.
    pub(crate) fn begins(&mut self, since: u64, view: View, call: CoreCall)
        requires view { IsView view }
        requires begins { MayBegin call }
        ensures state { self.new ≡ state_with self.old since (machine_of view call) }
        ensures sound { IsRunning (machine_of view call) }
        ensures op { IsOf (op_of call) (machine_of view call) }
    {
        self.since = since;
        self.machine.begins(view, call);
    }

    /// The index of its next call: one that is turned back uses up none.
    fn index_after(&self, answer: Once<Placed>) -> u64
        ensures { result ≡ index_after self.now.index answer }
    {
        match answer {
            Once::Again(_) => self.index,
            _ => self.index.saturating_add(1),
        }
    }

    /// One call more of it is counted.
    pub(crate) fn counts(&mut self)
        ensures { self.new ≡ state_counted self.old }
    {
        self.index = self.index.saturating_add(1);
    }

    /// Tells its call in flight the number that its action gave.
    pub(crate) fn advance(&mut self, got: u64) -> Option<Once<Placed>>
        requires { IsSomeAnd self.old.machine (λ machine. running_takes machine got) }
        ensures state { IfSome self.old.machine
            (λ machine. self.new ≡ state_after self.old (running_turned machine got)) }
        ensures answer { IfSome self.old.machine (λ machine. result ≡ reply_of (running_turned machine got)) }
        ensures fewer { IfSome self.old.machine
            (λ machine. GoesBelow running_left (running_left machine) (running_turned machine got)) }
    {
        let answer = self.machine.advance(got);
        if let Some(once) = answer {
            self.index = self.index_after(once);
        }
        answer
    }

    /// Its call in flight does what it asks for, and goes on so as long as one part of it does, with nothing between.
    pub(crate) fn burst<L: Ledger>(
        &mut self,
        memory: &mut Memory,
        steps: &mut Steps<L>,
    ) -> Option<Once<Placed>>
        requires { IsSomeAnd self.old.machine (MayBurst memory.old) }
        ensures { IfSome self.old.machine (λ machine. BurstsSo memory.old memory.new machine steps.old steps.new
            (λ end. (self.new ≡ state_after self.old end) × (result ≡ reply_of end))) }
    {
        let answer = self.machine.burst(memory, steps);
        if let Some(once) = answer {
            self.index = self.index_after(once);
        }
        answer
    }
}

impl PartyState {
    ghost use Rattle.std.specs.Prelude.{◌≡◌, IfSome, IsSome, IsSomeAnd, Some};
    ghost use Rattle.pm_words.specs.Turns.{GoesBelow};
    ghost use Rattle.updater.specs.Makings.{making_left, making_takes, making_turned};
    ghost use Rattle.index_core.specs.PartyStates.{state_turned, turn_reply};

    /// The turn of the updater that it makes.
    pub(crate) fn making(&self) -> &MakeTurn
        requires { IsSome self.now.turn }
        ensures { self.now.turn ≡ Some result.now }
    {
        match &self.turn {
            Some(making) => making,
            None => unreachable!(),
        }
    }

    /// Tells its turn of the updater, in place, the number that its action gave. Where that ends it, it makes none.
    pub(crate) fn advance_turn(&mut self, got: u64) -> Option<TurnReply>
        requires { IsSomeAnd self.old.turn (λ making. making_takes making got) }
        ensures state { IfSome self.old.turn (λ making. self.new ≡ state_turned self.old (making_turned making got)) }
        ensures answer { IfSome self.old.turn (λ making. result ≡ turn_reply (making_turned making got)) }
        ensures fewer { IfSome self.old.turn
            (λ making. GoesBelow making_left (making_left making) (making_turned making got)) }
    {
        let Some(making) = &mut self.turn else {
            unreachable!()
        };
        let reply = making.advance(got);
        if reply.is_some() {
            self.turn = None;
        }
        reply
    }
}

impl PartyState {
    ghost use Rattle.std.specs.Prelude.{◌≡◌, IfSome, IsSome, IsSomeAnd, Some};
    ghost use Rattle.pm_words.specs.Turns.{GoesBelow};
    ghost use Rattle.node_ops.specs.RecheckSteps.{recheck_left, recheck_takes, recheck_turned};
    ghost use Rattle.index_core.specs.PartyStates.{recheck_reply, state_rechecked};

    /// It begins a recheck, at this length of the history.
    pub(crate) fn begins_recheck(&mut self, since: u64, machine: Recheck)
        ensures { self.new ≡ record self.old { recheck = Some (record { since = since; machine = machine }) } }
    {
        self.recheck = Some(Rechecking { since, machine });
    }

    /// The recheck that it makes.
    pub(crate) fn rechecking(&self) -> Rechecking
        requires { IsSome self.now.recheck }
        ensures { self.now.recheck ≡ Some result }
    {
        match self.recheck {
            Some(rechecking) => rechecking,
            None => unreachable!(),
        }
    }

    /// Tells its recheck the number that its action gave. Where that ends it, it makes none.
    pub(crate) fn advance_recheck(&mut self, got: u64) -> Option<Once<Same>>
        requires { IsSomeAnd self.old.recheck (λ r. recheck_takes r.machine got) }
        ensures state { IfSome self.old.recheck
            (λ r. self.new ≡ state_rechecked self.old r.since (recheck_turned r.machine got)) }
        ensures answer { IfSome self.old.recheck (λ r. result ≡ recheck_reply (recheck_turned r.machine got)) }
        ensures fewer { IfSome self.old.recheck
            (λ r. GoesBelow recheck_left (recheck_left r.machine) (recheck_turned r.machine got)) }
    {
        let Rechecking { since, machine } = self.rechecking();
        match machine.resume(got) {
            Turn::Go(next) => {
                self.begins_recheck(since, next);
                None
            }
            Turn::Done(answer) => {
                self.recheck = None;
                Some(answer)
            }
        }
    }
}

/// The call was turned back since none of its caller's log lines is EMPTY.
pub(crate) fn lacks_line(answer: &Once<Placed>) -> bool
    ensures { result ≡ lacks_line answer.now }
{
    matches!(answer, Once::Again(Again::LogFull))
}

/// The call was turned back since there is no node to split its own with.
pub(crate) fn lacks_node(answer: &Once<Placed>) -> bool
    ensures { result ≡ lacks_node answer.now }
{
    matches!(answer, Once::Again(Again::NoFree))
}

/// The call is to be made again, since its node was full.
pub(crate) fn needs_split(answer: &Once<Placed>) -> bool
    ensures { result ≡ needs_split answer.now }
{
    matches!(answer, Once::Again(Again::NeedsSplit { .. }))
}

/// So many parties that have made no call.
pub fn idle_states(alloc: Global, callers: u64) -> Result<Vec<PartyState>, NoMemory>
    ensures { IfOk result (λ states. states.items ≡ idle_states callers) }
{
    let mut states = Vec::with_capacity(alloc, callers as usize)?;
    for caller in 0..callers {
        states.push(PartyState::idle(caller))?;
    }
    Ok(states)
}
