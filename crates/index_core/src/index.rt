//! The index in memory: how calls begin, make their steps and end.

ghost use Rattle.std.specs.Prelude.{◌≡◌, ℕ, ◌+◌, ◌-◌, ◌<◌, ◌≤◌, ◌↔◌, List, ◌++◌, length, replicate, OnOk, OnErr};
ghost use Rattle.std.specs.Prelude.{IsErr, IsTrue, IfSome, vec_len, vec_capacity, Some, None};
ghost use Rattle.pm_words.specs.Layouts.{IsLayout};
ghost use Rattle.index_law.specs.Worlds.{written};
ghost use Rattle.index_core.specs.CoreCalls.{IfRecheck, IfTurn, MayBegin, MayStart, most_writes};
ghost use Rattle.index_core.specs.Bursts.{BurstsTo};
ghost use Rattle.index_core.specs.Indexes.{IsBusy, IsInFlight, IsIndex, IsTurning, KeepsRoom, Starts, StepsTo, TurnsTo};
ghost use Rattle.index_core.specs.Rechecks.{RecheckStepsTo, StartsRecheck};
ghost use Rattle.index_core.specs.Indexes.{parties_of, view_of};
ghost use Rattle.index_core.specs.Turns.{StartsTurn, TurnStepsTo};
ghost use Rattle.index_core.specs.declared.party.Stepped.TheVariants.{Going};
ghost use Rattle.index_core.specs.Opened.{opened_index};
ghost use Rattle.pm_words.specs.Locations.{image_words};
ghost use Rattle.index_core.specs.Crashes.{IsCrash, evicted_index};
ghost use Rattle.index_core.specs.PartsOf.{index_in};
ghost use Rattle.index_core.specs.Lone.{CountsCall, HasListed, HasListing, HasNoCalls, HasShortWays, IsQuiet};
ghost use Rattle.index_core.specs.PartyStates.{idle_states};
ghost use Rattle.index_core.specs.Rounds.{BeginsRound};
ghost use Rattle.call_stages.specs.Stages.{counted};
ghost use Rattle.call_stages.specs.Views.{IsView};
ghost use Rattle.node_ops.specs.CallStages.{stage_of};
ghost use Rattle.node_ops.specs.RunningSteps.{IsRunning};
ghost use Rattle.index_core.specs.Cores.{IsAdd};

use crate::crash::{Crashed, Cuts};
use crate::party::{CoreCall, CoreReply, InFlight, PartyState, Stepped};
use call_stages::{Once, Placed, View};
use cat_history::{Change, Items, Write, replay};
use cat_key::Pair;
use node_ops::{PartWords, Running};
use pm_words::offsets::header;
use pm_words::offsets::shared::CLOCK;
use pm_words::{Action, Layout, Machine, Memory, NoMemory, Steps};
use std::marker::Model;
use std::sync::ledger::Ledger;

/// An index in memory, with at most one call in flight for each caller.
#[derive(Drop)]
pub struct Core {
    pub(crate) memory: Memory,
    pub(crate) generation: u64,
    pub(crate) states: Vec<PartyState>,
    base: Items<Pair>,
    history: Vec<Write>,
}

impl Model for Core {
    ghost use Rattle.index_core.specs.Indexes.{Index};

    ghost Value = { Index };

    ghost use Rattle.index_core.specs.Cores.{index_of, IsCore};

    ghost view = { index_of };

    ghost invariant = { IsCore };
}

/// What a core is made of.
#[derive(Drop)]
pub struct Parts {
    pub memory: Memory,
    pub generation: u64,
    pub states: Vec<PartyState>,
    pub base: Items<Pair>,
    pub history: Vec<Write>,
}

impl Core {
    /// What it is made of.
    pub fn parts(self) -> Parts
        ensures same { self ≡ index_in result self.spare }
        ensures index { IsIndex self }
    {
        let Core {
            memory,
            generation,
            states,
            base,
            history,
        } = self;
        Parts {
            memory,
            generation,
            states,
            base,
            history,
        }
    }

    /// An index of these parts, with no call in flight.
    pub fn of_parts(parts: Parts) -> Core
        requires index { IsIndex (index_in parts 0) }
        requires quiet { IsQuiet (index_in parts 0) }
        ensures same { result ≡ index_in parts result.spare }
        ensures index { IsIndex result }
    {
        let Parts {
            memory,
            generation,
            states,
            base,
            history,
        } = parts;
        Core {
            memory,
            generation,
            states,
            base,
            history,
        }
    }

    /// An index of these words, in the run that their header tells, with this base and this history. No call is in
    /// flight, and each party's calls are counted from 0: `states` has the parties, as `idle_states` makes them.
    /// `spare` is what room the history has.
    pub fn opened(
        memory: Memory,
        base: Items<Pair>,
        states: Vec<PartyState>,
        history: Vec<Write>,
    ) -> Core
        requires index { IsIndex (opened_index memory base history.items) }
        requires idle { states.items ≡ idle_states (parties_of memory.layout) }
        ensures same { result ≡ record (opened_index memory base history.items) { spare = result.spare } }
        ensures index { IsIndex result }
    {
        let layout = memory.layout();
        Core {
            generation: memory.words()[layout.cached(header::GENERATION) as usize],
            states,
            memory,
            base,
            history,
        }
    }

    /// Begins a call of the party, of which a put or delete takes one of `spare`. The party may be a caller, or that of
    /// the updater, which starts turns alone. `InFlight` comes exactly where the party's last call isn't answered, and
    /// then nothing changes.
    pub fn start(&mut self, party: u64, call: CoreCall) -> Result<(), InFlight>
        requires may { MayStart self.old.layout party call }
        requires spare { most_writes call ≤ self.old.spare }
        ensures in_flight { IsErr result ↔ IsBusy self.old party }
        ensures err { OnErr result (self.new ≡ self.old) }
        ensures started { OnOk result (MayBegin call → Starts self.old party call self.new) }
        ensures turns { OnOk result (IfTurn call
            (λ stamp release. StartsTurn self.old party stamp release self.new)) }
        ensures rechecks { OnOk result (IfRecheck call
            (λ node version. StartsRecheck self.old party node version self.new)) }
        ensures flies { OnOk result (IsBusy self.new party) }
        ensures spare { OnOk result (self.new.spare + most_writes call ≡ self.old.spare) }
        ensures before { IsIndex self.old }
        ensures index { IsIndex self.new }
    {
        match call {
            CoreCall::Turn { stamp, release } => self.start_turn(party, stamp, release),
            CoreCall::Recheck { node, version } => self.start_recheck(party, node, version),
            _ => self.start_name(party, call),
        }
    }

    /// Takes one step of the party's call, which is in flight: one action on one word, counted in `steps` as one event.
    /// Returns whether the call goes on or is answered. A call that took place is answered with the number of its name
    /// in the map at its place, which lies in the call's time, and its write stands in the history there. A part of a
    /// scan that took place lists the names that the map at its place has up to where its node ends. A get changes no
    /// word. A turn of the updater leaves the map, the history and the list. A recheck changes nothing, and is answered
    /// `Same` exactly where the node's version word, loaded after the clock, is the one that was handed in. Any other
    /// call is told its cause, and a put or delete gives the room for its write back to `spare`.
    pub fn step<L: Ledger>(&mut self, party: u64, steps: &mut Steps<L>) -> Stepped
        requires flies { IsBusy self.old party }
        ensures stepped { IsInFlight self.old party → StepsTo self.old party self.new result }
        ensures turned { (IsInFlight self.old party → ⊥) → IsTurning self.old party →
            TurnStepsTo self.old party self.new result }
        ensures rechecked { (IsInFlight self.old party → ⊥) → (IsTurning self.old party → ⊥) →
            RecheckStepsTo self.old party self.new result }
        ensures flies { result ≡ Going → IsBusy self.new party }
        ensures spare { KeepsRoom self.old self.new }
        ensures tick { steps.new ≡ steps.old + 1 }
        ensures index { IsIndex self.new }
    {
        if self.flies(party) {
            return self.step_name(party, steps);
        }
        if self.turns(party) {
            return match self.step_turn(party, steps) {
                None => Stepped::Going,
                Some(turned) => Stepped::Answered(CoreReply::Turn(turned)),
            };
        }
        match self.step_recheck(party, steps) {
            None => Stepped::Going,
            Some(answer) => Stepped::Answered(CoreReply::Same(answer)),
        }
    }

    /// Whether the party's last call isn't answered.
    pub fn is_busy(&self, party: u64) -> bool
        requires { party ≤ self.now.layout.callers }
        ensures { IsTrue result ↔ IsBusy self.now party }
    {
        self.may_begin(party).is_err()
    }

    /// Refuses the party's next call where its last one isn't answered.
    pub(crate) fn may_begin(&self, party: u64) -> Result<(), InFlight>
        requires { party ≤ self.now.layout.callers }
        ensures in_flight { IsErr result ↔ IsBusy self.now party }
        ensures index { IsIndex self.now }
    {
        if self.states[party as usize].is_busy() {
            return Err(InFlight);
        }
        Ok(())
    }

    /// What a call of this caller has of the index.
    pub(crate) fn seen_by(&self, caller: u64) -> View
        requires { caller < self.now.layout.callers }
        ensures sees { result ≡ view_of self.now caller }
        ensures valid { IsView result }
    {
        View {
            layout: self.memory.layout(),
            generation: self.generation,
            caller,
        }
    }

    /// Whether the party has a call on a name in flight.
    fn flies(&self, party: u64) -> bool
        requires { IsBusy self.now party }
        ensures { IsTrue result ↔ IsInFlight self.now party }
    {
        self.states[party as usize].machine.flies()
    }

    /// Whether the party makes a turn of the updater.
    fn turns(&self, party: u64) -> bool
        requires { IsBusy self.now party }
        ensures { IsTrue result ↔ IsTurning self.now party }
    {
        self.states[party as usize].turn.is_some()
    }

    /// Begins a call of a caller on a name, as `start` does.
    pub(crate) fn start_name(&mut self, party: u64, call: CoreCall) -> Result<(), InFlight>
        requires party { party < self.old.layout.callers }
        requires begins { MayBegin call }
        requires spare { most_writes call ≤ self.old.spare }
        ensures in_flight { IsErr result ↔ IsBusy self.old party }
        ensures err { OnErr result (self.new ≡ self.old) }
        ensures started { OnOk result (Starts self.old party call self.new) }
        ensures spare { OnOk result (self.new.spare + most_writes call ≡ self.old.spare) }
        ensures before { IsIndex self.old }
        ensures index { IsIndex self.new }
    {
        self.may_begin(party)?;
        let view = self.seen_by(party);
        let since = self.history.len() as u64;
        self.states[party as usize].begins(since, view, call);
        Ok(())
    }

    /// Takes one step of the party's call on a name, as `step` does.
    fn step_name<L: Ledger>(&mut self, party: u64, steps: &mut Steps<L>) -> Stepped
        requires flies { IsInFlight self.old party }
        ensures stepped { StepsTo self.old party self.new result }
        ensures spare { KeepsRoom self.old self.new }
        ensures tick { steps.new ≡ steps.old + 1 }
        ensures index { IsIndex self.new }
    {
        let machine = self.states[party as usize].machine.running();
        let count = machine.count();
        let listed = machine.listed();
        match self.step_call(party, steps) {
            None => Stepped::Going,
            Some(answer) => Stepped::Answered(CoreReply::of(count, listed, answer)),
        }
    }

    /// Takes one step of the party's call on a name, which is in flight, and returns its answer, if it is answered.
    /// What a part lists its machine tells before this.
    pub(crate) fn step_call<L: Ledger>(
        &mut self,
        party: u64,
        steps: &mut Steps<L>,
    ) -> Option<Once<Placed>>
        requires flies { IsInFlight self.old party }
        ensures turned { TurnsTo self.old party self.new result }
        ensures spare { KeepsRoom self.old self.new }
        ensures tick { steps.new ≡ steps.old + 1 }
        ensures index { IsIndex self.new }
    {
        let at = party as usize;
        let PartyState {
            caller,
            index,
            machine,
            ..
        } = &self.states[at];
        let machine = machine.running();
        let action = machine.action();
        let got = self.memory.act(action, steps);
        count(&mut self.history, *caller, *index, machine, action);
        self.states[at].advance(got)
    }

    /// Takes steps of the party's call on a name, which is in flight, with nothing between: those that one part of its
    /// machine makes at once, or the one that counts its write. Returns its answer, if it is answered. So a call that
    /// is alone makes them in a tight loop.
    pub(crate) fn burst<L: Ledger>(
        &mut self,
        party: u64,
        steps: &mut Steps<L>,
    ) -> Option<Once<Placed>>
        requires flies { IsInFlight self.old party }
        ensures bursts { BurstsTo self.old party self.new result steps.old steps.new }
        ensures index { IsIndex self.new }
    {
        let at = party as usize;
        if self.states[at].machine.running().is_counted_next() {
            return self.step_call(party, steps);
        }
        self.states[at].burst(&mut self.memory, steps)
    }

    /// Makes an image word durable: its cached twin is copied to its durable one.
    pub fn evict(&mut self, word: u64)
        requires { word < image_words self.old.layout }
        ensures evicted { self.new ≡ evicted_index self.old word }
        ensures short { HasShortWays self.old → HasShortWays self.new }
        ensures index { IsIndex self.new }
    {
        self.memory.evict(word);
    }

    /// Power fails now. Returns the durable words, which are an image that is sound by all rules, and the calls that
    /// were cut off. Its map is that of the whole history and of the unplaced writes that the image shows.
    pub fn crash(self) -> Crashed
        ensures { IsCrash self result.image result.cuts }
    {
        Crashed {
            image: self.memory.crash(),
            cuts: Cuts::of(self.states),
        }
    }

    /// Makes room for so many writes, of which `spare` tells. Nothing else changes, on `NoMemory` either.
    pub fn reserve(&mut self, writes: u64) -> Result<(), NoMemory>
        ensures ok { OnOk result (writes ≤ self.new.spare) }
        ensures kept { self.new ≡ record self.old { spare = self.new.spare } }
        ensures spare { self.old.spare ≤ self.new.spare }
    {
        // Each call in flight may still place one.
        let owed = self.states.len();
        self.history.reserve((writes as usize).saturating_add(owed))
    }

    /// Begins another round, with no call in flight. The base is the map as it is, in rising order of names, and its
    /// history is empty; the clock is 0, and the indexes of each party's calls begin at 0. The nodes stay as they are,
    /// and so do their words, what is durable, and `spare`. On `NoMemory` nothing changes.
    ///
    /// It takes time in proportion to the names and the history, and to the logarithm of the names.
    pub fn new_round(&mut self) -> Result<(), NoMemory>
        requires quiet { IsQuiet self.old }
        ensures ok { OnOk result (BeginsRound self.old self.new) }
        ensures spare { OnOk result (self.new.spare ≡ self.old.spare) }
        ensures err { OnErr result (self.new ≡ self.old) }
        ensures short { HasShortWays self.old → HasShortWays self.new }
        ensures quiet { IsQuiet self.new }
        ensures index { IsIndex self.new }
    {
        let alloc = *self.history.allocator();
        let base = replay(alloc, &self.base, self.history.as_slice())?;
        // All that may fail is done before anything changes.
        let spare = self.history.capacity() - self.history.len();
        let history = Vec::with_capacity(alloc, spare)?;
        self.memory.store(CLOCK, 0);
        set_idle(&mut self.states);
        self.base = base;
        self.history = history;
        Ok(())
    }

    /// Whether the party's call is a part of a scan that gives its node back next, and so has listed its names.
    pub(crate) fn has_listed(&self, party: u64) -> bool
        requires { IsInFlight self.now party }
        ensures { IsTrue result ↔ HasListing self.now party }
    {
        let machine = self.states[party as usize].machine.running();
        machine.has_listed()
    }

    /// What it lists.
    pub(crate) fn listing(&self, party: u64) -> PartWords
        requires { HasListing self.now party }
        ensures { HasListed self.now party result }
    {
        let machine = self.states[party as usize].machine.running();
        let Some(words) = machine.listed() else {
            unreachable!()
        };
        words
    }

    /// Counts a whole call of the party that was turned back for want of room: to its caller it was answered.
    pub(crate) fn count_call(&mut self, party: u64)
        requires party { party < self.old.layout.callers }
        requires idle { HasNoCalls self.old }
        ensures counts { CountsCall self.old party self.new }
        ensures spare { self.new.spare ≡ self.old.spare }
        ensures index { IsIndex self.new }
    {
        self.states[party as usize].counts();
    }

    /// The writes placed since the base, each at its place.
    pub fn history(&self) -> &[Write]
        ensures { result.now ≡ self.now.history }
    {
        self.history.as_slice()
    }

    /// The map that the history begins with.
    pub fn base(&self) -> &Items<Pair>
        ensures { result.now ≡ self.now.base }
    {
        &self.base
    }

    /// The layout of its words.
    pub fn layout(&self) -> Layout
        ensures layout { result ≡ self.now.layout }
        ensures valid { IsLayout result }
    {
        self.memory.layout()
    }
}

/// Counts the write of a step by this action, which the machine asks for next, of this caller's call with this index. A
/// machine counts a change in the clock only where it adds, so it isn't asked for one otherwise.
fn count(history: &mut Vec<Write>, caller: u64, index: u64, machine: &Running, action: Action)
    requires fits { IsRunning machine.now }
    requires adds { IfSome (counted (stage_of machine.now)) (λ _. IsAdd action) }
    requires room { vec_len history.old + length (written caller index (counted (stage_of machine.now)))
        ≤ vec_capacity history.old }
    ensures items { history.new.items
        ≡ history.old.items ++ written caller index (counted (stage_of machine.now)) }
    ensures room { vec_capacity history.old ≤ vec_capacity history.new }
{
    if let Action::Add(_) = action {
        count_change(history, caller, index, machine.counts());
    }
}

/// Counts the change of a step, if it has one, as `count` does.
fn count_change(history: &mut Vec<Write>, caller: u64, index: u64, counts: Option<Change>)
    requires { vec_len history.old + length (written caller index counts) ≤ vec_capacity history.old }
    ensures items { history.new.items ≡ history.old.items ++ written caller index counts }
    ensures room { vec_capacity history.old ≤ vec_capacity history.new }
{
    if let Some(change) = counts {
        history.push_reserved(Write {
            caller,
            index,
            change,
        });
    }
}

/// The parties as those that have made no call.
fn set_idle(states: &mut Vec<PartyState>)
    ensures { states.new.items ≡ idle_states (length states.old.items) }
{
    for caller in 0..states.len() {
        states[caller].begins_anew(caller as u64);
    }
}
