//! Turns of the updater beside calls.

ghost use Rattle.std.specs.Prelude.{◌≡◌, ◌≢◌, ◌-◌, ◌<◌, ◌≤◌, ◌^◌, None, Some};
ghost use Rattle.pm_words.specs.declared.machine.Turn.TheVariants.{Go};
ghost use Rattle.updater.specs.declared.making.MakeTurn.TheVariants.{Working};
ghost use Rattle.updater.specs.Works.{IsWork, work_from};
ghost use Rattle.epochs.specs.Kept.{first_epoch, last_epoch};
ghost use Rattle.epochs.specs.Seats.{IsSeatOf, known_by};
ghost use Rattle.pac_index.specs.Kept.{IsLone, party};
ghost use Rattle.pac_index.specs.Budgets.{Pays};
ghost use Rattle.pac_index.specs.Cuts.{HasPaid, IsStoppedTurn};
ghost use Rattle.pac_index.specs.Callers.{HasMadeNone, IsCallerOf, StaysCaller};
ghost use Rattle.pac_index.specs.CutTurns.{TurnStops};
ghost use Rattle.pac_index.specs.Outcomes.{TurnTryComesTo, TurnTryRests};
ghost use Rattle.pac_index.specs.Turns.{IsDated, OnTurn, MadeTurn, TurnHeld, TurnReady, WorkStepsOn};
ghost use Rattle.pac_index.specs.Turns.{turn_in, turning, turning_at, work_in, TurnGoes};

use crate::budget::{pay, pay_one};
use crate::caller::Caller;
use crate::gate::{Gate, OpenGate, Pace};
use crate::rule::{FirstTurnStep, FirstWorkStep, HasEpoch, Members, NextTurnStep};
use crate::shared::Shared;
use crate::tried::TriedTurn;
use atomic_table::Seat;
use epochs::{Advance, EpochSeat};
use pm_words::Machine;
use pm_words::codes::updater_lock::UNTAKEN;
use std::marker::Brand;
use updater::{Turned, Work, take_turn};

impl Shared {
    /// One try of a turn of the updater, beside the calls of the others: it takes the READY log lines to the search
    /// layer and empties them, and makes merged nodes FREE. Once it has the updater lock it tries to advance the epoch,
    /// and loads it: that is the stamp for the nodes that it finds merged, and those are made FREE whose stamp is two
    /// less or lower, so that each pin that is held was taken behind their stamp. The last caller makes such turns
    /// alone, and each other caller may make one too. `Held` comes exactly where its first action finds the updater
    /// lock taken; then the epoch isn't touched. It takes no pin, places no write and counts no call.
    pub fn turn_once(&self, caller: &mut Caller) -> TriedTurn
        requires caller { IsCallerOf self.now caller.old }
        ensures stays { StaysCaller self.now caller.old caller.new }
        ensures same { HasMadeNone caller.old caller.new }
        ensures rests { TurnTryRests result caller.new }
        ensures told { TurnTryComesTo self.now.epochs.parties caller.old result caller.new }
        ensures paid { HasPaid caller.old caller.new }
        ensures stopped { IsStoppedTurn caller.old result caller.new }
    {
        let mut pace = Pace::begin(&OpenGate, caller, caller.index);
        self.try_turn(caller, &mut pace)
    }

    /// One try of a turn of the updater by its caller, the one of this number, with the gate before its first step and
    /// between its steps on the index.
    pub fn turn_at_gate<G: Gate>(&self, caller: &mut Caller, turn: u64, gate: &G) -> TriedTurn
        requires caller { IsCallerOf self.now caller.old }
        requires updater { caller.old.number ≡ self.now.about.layout.callers }
        ensures stays { StaysCaller self.now caller.old caller.new }
        ensures same { HasMadeNone caller.old caller.new }
        ensures rests { TurnTryRests result caller.new }
        ensures told { TurnTryComesTo self.now.epochs.parties caller.old result caller.new }
        ensures paid { HasPaid caller.old caller.new }
        ensures stopped { IsStoppedTurn caller.old result caller.new }
    {
        let mut pace = Pace::begin(gate, caller, turn);
        self.try_turn(caller, &mut pace)
    }

    /// One try of a turn by any of the callers, in a call that goes at this pace.
    pub(crate) fn try_turn<G: Gate>(&self, caller: &mut Caller, pace: &mut Pace<'_, G>) -> TriedTurn
        requires caller { IsCallerOf self.now caller.old }
        ensures stays { StaysCaller self.now caller.old caller.new }
        ensures same { HasMadeNone caller.old caller.new }
        ensures rests { TurnTryRests result caller.new }
        ensures told { TurnTryComesTo self.now.epochs.parties caller.old result caller.new }
        ensures paid { HasPaid caller.old caller.new }
        ensures stopped { IsStoppedTurn caller.old result caller.new }
    {
        if caller.is_spent() {
            return TriedTurn::Cut;
        }
        self.run_turn(&mut caller.seat, &mut caller.pins, &mut caller.left, pace)
    }

    /// A turn by the seat's party, from its first step to its answer, or until it has no step left before one that it
    /// still has to make, with the gate before each step on the index.
    fn run_turn<G: Gate>(
        &self,
        seat: &mut Seat<(), Members>,
        pins: &mut EpochSeat,
        left: &mut Option<u64>,
        pace: &mut Pace<'_, G>,
    ) -> TriedTurn
        requires table { seat.old.table_id ≡ self.now.table.shared.table_id }
        requires lone { IsLone seat.old.me }
        requires about { (party seat.old.me).about ≡ self.now.about }
        requires resting { (party seat.old.me).state.turn ≡ None }
        requires pins { IsSeatOf self.now.epochs pins.old }
        requires left { left.old ≢ Some 0 }
        ensures seat { (seat.new.table_id ≡ seat.old.table_id) × (seat.new.id ≡ seat.old.id) }
        ensures lone { IsLone seat.new.me }
        ensures pins { IsSeatOf self.now.epochs pins.new × (pins.new.party ≡ pins.old.party) ×
            ((known_by pins.new).pin ≡ (known_by pins.old).pin) }
        ensures told { OnTurn result (λ turned epoch advanced. MadeTurn self.now.epochs.parties (party seat.old.me)
            (known_by pins.old) turned epoch advanced (party seat.new.me) (known_by pins.new))
            (λ word. TurnHeld word (party seat.old.me) (party seat.new.me) × (known_by pins.new ≡ known_by pins.old))
            ((left.new ≡ Some 0) × TurnStops self.now.epochs.parties (party seat.old.me) (known_by pins.old)
            (party seat.new.me) (known_by pins.new)) }
        ensures paid { Pays left.old left.new (party seat.old.me).taken (party seat.new.me).taken }
    {
        pay_one(left);
        let word = self.lock_turn(seat, pace);
        if word != UNTAKEN {
            return TriedTurn::Held { word };
        }
        if !pay(left) {
            return TriedTurn::Cut;
        }
        let (epoch, advanced) = self.date_turn(seat, pins);
        let mut work = Work::new(self.about.layout, self.about.generation, epoch, epoch - 2);
        let mut turned = self.begin_work::<Brand, G>(seat, epoch, &mut work, pace);
        'steps: loop {
            if let Some(turned) = turned {
                return TriedTurn::Turned {
                    turned,
                    epoch,
                    advanced,
                };
            }
            if !pay(left) {
                return TriedTurn::Cut;
            }
            turned = self.go_on_work(seat, &mut work, pace);
        }
    }

    /// The first step of a turn, with the gate before it: the exchange of the updater lock, and the word that it found
    /// there.
    fn lock_turn<G: Gate>(&self, seat: &mut Seat<(), Members>, pace: &mut Pace<'_, G>) -> u64
        requires table { seat.old.table_id ≡ self.now.table.shared.table_id }
        requires lone { IsLone seat.old.me }
        requires about { (party seat.old.me).about ≡ self.now.about }
        requires resting { (party seat.old.me).state.turn ≡ None }
        ensures seat { (seat.new.table_id ≡ seat.old.table_id) × (seat.new.id ≡ seat.old.id) }
        ensures lone { IsLone seat.new.me }
        ensures goes { TurnGoes (turn_in (party seat.old.me) first_epoch) (turning (party seat.old.me)) result
            (party seat.new.me) }
    {
        pace.step();
        self.act::<FirstTurnStep>(seat, take_turn())
    }

    /// Tries once to advance the epoch, and loads it, for a turn that has the updater lock and has done nothing under
    /// it: so the epoch stands still until that turn gives the lock back.
    fn date_turn(
        &self,
        seat: &Seat<(), Members>,
        pins: &mut EpochSeat,
    ) -> (u64, Result<u64, Advance>)
        requires locked { (party seat.now.me).state.turn ≡ Some (work_in (party seat.now.me) first_epoch) }
        requires pins { IsSeatOf self.now.epochs pins.old }
        ensures pins { IsSeatOf self.now.epochs pins.new × (pins.new.party ≡ pins.old.party) ×
            ((known_by pins.new).pin ≡ (known_by pins.old).pin) }
        ensures dated { IsDated self.now.epochs.parties (known_by pins.old) result.0 result.1 (known_by pins.new) }
        ensures epoch { (first_epoch ≤ result.0) × (result.0 ≤ last_epoch) }
    {
        let advanced = self.epochs.advance_once(pins);
        let epoch = self.epochs.released(pins).number + 2;
        (epoch, advanced)
    }

    /// The first step of a turn that has the updater lock, with the gate before it. From here on it is one at this
    /// epoch.
    fn begin_work<E: HasEpoch, G: Gate>(
        &self,
        seat: &mut Seat<(), Members>,
        epoch: u64,
        work: &mut Work,
        pace: &mut Pace<'_, G>,
    ) -> Option<Turned>
        requires table { seat.old.table_id ≡ self.now.table.shared.table_id }
        requires chosen { epoch ≡ E.epoch }
        requires lone { IsLone seat.old.me }
        requires about { (party seat.old.me).about ≡ self.now.about }
        requires flies { (party seat.old.me).state.turn ≡ Some (work_in (party seat.old.me) first_epoch) }
        requires ready { TurnReady self.now.about.layout (Go (work_in (party seat.old.me) first_epoch)) }
        requires epoch { (first_epoch ≤ epoch) × (epoch ≤ last_epoch) }
        requires work { work.old ≡ work_from self.now.about.layout self.now.about.generation epoch (epoch - 2) }
        requires sound { IsWork work.old }
        ensures seat { (seat.new.table_id ≡ seat.old.table_id) × (seat.new.id ≡ seat.old.id) }
        ensures lone { IsLone seat.new.me }
        ensures steps { WorkStepsOn work.old (turning_at (party seat.old.me) epoch) (party seat.new.me) work.new
            result }
    {
        pace.step();
        let got = self.act::<FirstWorkStep<E>>(seat, work.action());
        work.advance(got)
    }

    /// The next step of a turn under the updater lock, with the gate before it.
    fn go_on_work<G: Gate>(
        &self,
        seat: &mut Seat<(), Members>,
        work: &mut Work,
        pace: &mut Pace<'_, G>,
    ) -> Option<Turned>
        requires table { seat.old.table_id ≡ self.now.table.shared.table_id }
        requires lone { IsLone seat.old.me }
        requires flies { (party seat.old.me).state.turn ≡ Some (Working work.old) }
        requires ready { TurnReady self.now.about.layout (Go (Working work.old)) }
        ensures seat { (seat.new.table_id ≡ seat.old.table_id) × (seat.new.id ≡ seat.old.id) }
        ensures lone { IsLone seat.new.me }
        ensures steps { WorkStepsOn work.old (party seat.old.me) (party seat.new.me) work.new result }
    {
        pace.step();
        let got = self.act::<NextTurnStep>(seat, work.action());
        work.advance(got)
    }
}
