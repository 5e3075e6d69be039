//! The index whose words threads share, and how the steps of a call are taken on them.

ghost use Rattle.std.specs.Prelude.{◌≡◌, ◌≢◌, ◌+◌, ◌<◌, ◌^◌, None, Some, IsSome};
ghost use Rattle.pm_words.specs.Layouts.{IsLayout};
ghost use Rattle.pm_words.specs.Locations.{row_words};
ghost use Rattle.version_lock.specs.declared.TheConstants.{GENERATION_LIMIT};
ghost use Rattle.pm_words.specs.Turns.{turn_of};
ghost use Rattle.call_stages.specs.Views.{IsView};
ghost use Rattle.node_ops.specs.Asked.{IsOf};
ghost use Rattle.node_ops.specs.RunningSteps.{IsRunning, listed_in};
ghost use Rattle.index_core.specs.declared.party.CoreCall.TheVariants as call;
ghost use Rattle.index_core.specs.CoreCalls.{MayBegin, op_of};
ghost use Rattle.index_core.specs.Indexes.{parties_of};
ghost use Rattle.epochs.specs.Seats.{Holds};
ghost use Rattle.index_core.specs.MachineLaws.{IsReady};
ghost use Rattle.pac_index.specs.Budgets.{OnRan, Pays, StopsAt};
ghost use Rattle.pac_index.specs.Kept.{May, WasTold, IsLone, party, machine_in};
ghost use Rattle.pac_index.specs.Calls.{Answers, PartAnswers, Runs, FirstTurn, StepsOn};

use crate::budget::{pay, pay_one};
use crate::gate::{Gate, Pace};
use crate::ran::Ran;
use crate::rooms::Rooms;
use crate::rule::{About, BeginsCall, ByOutcome, FirstStep, Members, NextStep, Outcome, Ruled};
use atomic_table::{Seat, Table};
use call_stages::{Once, Placed, View};
use cat_key::Name;
use epochs::{EpochSeat, Epochs, Pin};
use index_core::CoreCall;
use node_ops::{Part, PartWords, Running};
use pm_words::{Action, Layout, Machine};
use std::alloc::Global;

/// An index whose words threads share, with an epoch and a pin for each caller on a table of their own.
#[derive(Drop)]
pub struct Shared {
    pub(crate) table: Table<(), Members, About, Ruled, Global>,
    pub(crate) about: About,
    pub(crate) epochs: Epochs,
    ghost parties: { epochs.parties ≡ parties_of about.layout },
    ghost key: { table.shared.key ≡ about },
    ghost words: { table.shared.table_id.words ≡ row_words about.layout },
    ghost slots: { table.shared.table_id.slots ≡ 0 },
    ghost small: { table.shared.table_id.words < 2 ^ 64 },
    ghost layout: { IsLayout about.layout },
    ghost run: { about.generation < GENERATION_LIMIT },
}

impl Shared {
    /// The layout of its words.
    pub fn layout(&self) -> Layout
        ensures layout { result ≡ self.now.about.layout }
        ensures valid { IsLayout result }
    {
        self.about.layout
    }

    /// One action by a seat.
    pub(crate) fn act<T: Outcome>(&self, seat: &mut Seat<(), Members>, action: Action) -> u64
        requires table { seat.old.table_id ≡ self.now.table.shared.table_id }
        requires allowed { May self.now.table.shared.key self.now.table.shared.table_id.words
            self.now.table.shared.table_id.slots seat.old.id seat.old.me action T.tells }
        ensures seat { (seat.new.table_id ≡ seat.old.table_id) × (seat.new.id ≡ seat.old.id) }
        ensures told { WasTold T.tells seat.old.me action result seat.new.me }
    {
        let table = &self.table.shared;
        match action {
            Action::Load(address) => table.load::<ByOutcome<T>>(seat, address as usize),
            Action::Store(address, value) => {
                table.store::<ByOutcome<T>>(seat, address as usize, value);
                0
            }
            Action::Exchange(address, old, new) => {
                table.compare_exchange::<ByOutcome<T>>(seat, address as usize, old, new)
            }
            Action::Add(address) => table.fetch_add::<ByOutcome<T>>(seat, address as usize, 1),
            Action::Drain(address, value) => {
                let durable = address + self.about.layout.image_words();
                table.store::<ByOutcome<T>>(seat, durable as usize, value);
                0
            }
        }
    }

    /// One call on one name by the seat's party, from its first step to its answer, or until it has no step left before
    /// one that it still has to make, with the gate before each step. Its pin is held meanwhile, since it is lent with
    /// the seat that could give it back.
    pub(crate) fn run<C: BeginsCall, G: Gate>(
        &self,
        seat: &mut Seat<(), Members>,
        number: u64,
        index: u64,
        call: CoreCall,
        pins: &EpochSeat,
        pin: &Pin,
        left: &mut Option<u64>,
        rooms: &mut Rooms,
        pace: &mut Pace<'_, G>,
    ) -> Ran<Placed>
        requires pinned { Holds pins.now pin.now }
        requires table { seat.old.table_id ≡ self.now.table.shared.table_id }
        requires chosen { (call ≡ C.call) × (index ≡ C.index) }
        requires lone { IsLone seat.old.me }
        requires about { (party seat.old.me).about ≡ self.now.about }
        requires idle { (party seat.old.me).state.machine ≡ None }
        requires number { ((party seat.old.me).state.caller ≡ number) × (number < self.now.about.layout.callers) }
        requires begins { MayBegin call }
        requires left { left.old ≢ Some 0 }
        ensures seat { (seat.new.table_id ≡ seat.old.table_id) × (seat.new.id ≡ seat.old.id) }
        ensures lone { IsLone seat.new.me }
        ensures ran { OnRan result (λ answer. Answers call index (party seat.old.me) answer (party seat.new.me))
            (λ place. (left.new ≡ Some 0) × StopsAt call index (party seat.old.me) place (party seat.new.me)) }
        ensures paid { Pays left.old left.new (party seat.old.me).taken (party seat.new.me).taken }
    {
        let machine = rooms.begun(self.view(number), &call);
        self.run_in::<C, G>(seat, machine, left, pace)
    }

    /// The same of this machine, which begins.
    fn run_in<C: BeginsCall, G: Gate>(
        &self,
        seat: &mut Seat<(), Members>,
        machine: &mut Running,
        left: &mut Option<u64>,
        pace: &mut Pace<'_, G>,
    ) -> Ran<Placed>
        requires table { seat.old.table_id ≡ self.now.table.shared.table_id }
        requires lone { IsLone seat.old.me }
        requires about { (party seat.old.me).about ≡ self.now.about }
        requires idle { (party seat.old.me).state.machine ≡ None }
        requires machine { machine.old ≡ machine_in (party seat.old.me) C.call }
        requires sound { IsRunning machine.old }
        requires op { IsOf (op_of C.call) machine.old }
        requires left { left.old ≢ Some 0 }
        ensures seat { (seat.new.table_id ≡ seat.old.table_id) × (seat.new.id ≡ seat.old.id) }
        ensures lone { IsLone seat.new.me }
        ensures ran { OnRan result (λ answer. Answers C.call C.index (party seat.old.me) answer (party seat.new.me))
            (λ place. (left.new ≡ Some 0) × StopsAt C.call C.index (party seat.old.me) place (party seat.new.me)) }
        ensures paid { Pays left.old left.new (party seat.old.me).taken (party seat.new.me).taken }
    {
        pay_one(left);
        let mut answer = self.begin::<C, G>(seat, machine, pace);
        'steps: loop {
            if let Some(answer) = answer {
                return Ran::Answered(answer);
            }
            if !pay(left) {
                return Ran::Cut {
                    place: machine.place(),
                };
            }
            // As `go_on`, written out: in rounds of several callers the call alone takes a twelfth of a step's time.
            pace.step();
            let got = self.act::<NextStep>(seat, machine.action());
            answer = machine.advance(got);
        }
    }

    /// One part of a range scan by the seat's party, in the same way. What it lists takes some 2 KB, so it has a
    /// function of its own, and a call on one name clears no such room.
    pub(crate) fn run_part<C: BeginsCall, G: Gate>(
        &self,
        seat: &mut Seat<(), Members>,
        number: u64,
        index: u64,
        low: Name,
        count: u64,
        pins: &EpochSeat,
        pin: &Pin,
        left: &mut Option<u64>,
        pace: &mut Pace<'_, G>,
    ) -> Ran<PartWords>
        requires pinned { Holds pins.now pin.now }
        requires table { seat.old.table_id ≡ self.now.table.shared.table_id }
        requires chosen { (call.Part low count ≡ C.call) × (index ≡ C.index) }
        requires lone { IsLone seat.old.me }
        requires about { (party seat.old.me).about ≡ self.now.about }
        requires idle { (party seat.old.me).state.machine ≡ None }
        requires number { ((party seat.old.me).state.caller ≡ number) × (number < self.now.about.layout.callers) }
        requires left { left.old ≢ Some 0 }
        ensures seat { (seat.new.table_id ≡ seat.old.table_id) × (seat.new.id ≡ seat.old.id) }
        ensures lone { IsLone seat.new.me }
        ensures ran { OnRan result (λ answer. PartAnswers low count index (party seat.old.me) answer
            (party seat.new.me)) (λ place. (left.new ≡ Some 0) × StopsAt (call.Part low count) index
            (party seat.old.me) place (party seat.new.me)) }
        ensures paid { Pays left.old left.new (party seat.old.me).taken (party seat.new.me).taken }
    {
        let call = CoreCall::Part { low, count };
        let mut machine = call.machine(self.view(number));
        pay_one(left);
        let mut answer = self.begin::<C, G>(seat, &mut machine, pace);
        'steps: loop {
            if let Some(answer) = answer {
                return Ran::Answered(Part::early(answer));
            }
            if !pay(left) {
                return Ran::Cut {
                    place: machine.place(),
                };
            }
            if machine.has_listed() {
                let words = listing(&machine);
                let Some(last) = self.go_on(seat, &mut machine, pace) else {
                    unreachable!()
                };
                return match last {
                    Once::Done(_) => Ran::Answered(Once::Done(words)),
                    _ => Ran::Answered(Part::early(last)),
                };
            }
            answer = self.go_on(seat, &mut machine, pace);
        }
    }

    /// How the calls of this caller see the index.
    pub(crate) fn view(&self, number: u64) -> View
        requires { number < self.now.about.layout.callers }
        ensures view { result ≡ record {
          layout = self.now.about.layout;
          generation = self.now.about.generation;
          caller = number;
        } }
        ensures valid { IsView result }
    {
        View {
            layout: self.about.layout,
            generation: self.about.generation,
            caller: number,
        }
    }

    /// The first step of a call, with the gate before it.
    pub(crate) fn begin<C: BeginsCall, G: Gate>(
        &self,
        seat: &mut Seat<(), Members>,
        machine: &mut Running,
        pace: &mut Pace<'_, G>,
    ) -> Option<Once<Placed>>
        requires table { seat.old.table_id ≡ self.now.table.shared.table_id }
        requires lone { IsLone seat.old.me }
        requires about { (party seat.old.me).about ≡ self.now.about }
        requires idle { (party seat.old.me).state.machine ≡ None }
        requires machine { machine.old ≡ machine_in (party seat.old.me) C.call }
        requires sound { IsRunning machine.old }
        requires op { IsOf (op_of C.call) machine.old }
        ensures seat { (seat.new.table_id ≡ seat.old.table_id) × (seat.new.id ≡ seat.old.id) }
        ensures lone { IsLone seat.new.me }
        ensures runs { Runs C.call C.index (party seat.old.me) (turn_of machine.new result) (party seat.new.me) }
        ensures turned { FirstTurn machine.old machine.new result }
        ensures taken { (party seat.new.me).taken ≡ (party seat.old.me).taken + 1 }
    {
        pace.step();
        let got = self.act::<FirstStep<C>>(seat, machine.action());
        machine.advance(got)
    }

    /// The next step of the call in flight, with the gate before it.
    fn go_on<G: Gate>(
        &self,
        seat: &mut Seat<(), Members>,
        machine: &mut Running,
        pace: &mut Pace<'_, G>,
    ) -> Option<Once<Placed>>
        requires table { seat.old.table_id ≡ self.now.table.shared.table_id }
        requires lone { IsLone seat.old.me }
        requires flies { (party seat.old.me).state.machine ≡ Some machine.old }
        requires ready { IsReady self.now.about.layout self.now.about.generation machine.old }
        ensures seat { (seat.new.table_id ≡ seat.old.table_id) × (seat.new.id ≡ seat.old.id) }
        ensures lone { IsLone seat.new.me }
        ensures steps { StepsOn machine.old (party seat.old.me) (party seat.new.me) machine.new result }
    {
        pace.step();
        let got = self.act::<NextStep>(seat, machine.action());
        machine.advance(got)
    }
}

/// What a part lists that loads its version word again next.
fn listing(machine: &Running) -> PartWords
    requires sound { IsRunning machine.now }
    requires listed { IsSome (listed_in machine.now) }
    ensures { listed_in machine.now ≡ Some result }
{
    let Some(words) = machine.listed() else {
        unreachable!()
    };
    words
}
