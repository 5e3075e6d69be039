//! Calls that are made with no other in flight, within a budget of events.
//!
//! Each event takes one of the budget. Where it is used up before an event that the call still has to make, the call
//! stays in flight as it is, or the turn of the updater does that it wanted, which the party makes itself.
//!
//! Beside them a turn of the updater by another party may have stopped so, and has the updater lock for ever. A call
//! that needs no turn is made as if it weren't there; one that needs a turn tries for the lock until its budget is used
//! up.

ghost use Rattle.std.specs.Prelude.{◌≡◌, ◌≢◌, ◌+◌, ◌<◌, ◌≤◌, ℕ, length, None, IfSome};
ghost use Rattle.index_core.specs.declared.party.CoreCall.TheVariants as CoreCall;
ghost use Rattle.index_core.specs.declared.party.Whole.TheVariants as Whole;
ghost use Rattle.index_core.specs.declared.party.Within.TheVariants as Within;
ghost use Rattle.index_core.specs.CoreCalls.{IfRecheck, IfTurn, IsGetCall, MayBegin, MayStart, count_of, most_writes};
ghost use Rattle.index_core.specs.Costs.{WithMost, turn_actions};
ghost use Rattle.index_core.specs.Indexes.{IsIndex, KeepsWords};
ghost use Rattle.index_core.specs.Lone.{HasShortWays, IsQuiet, IsStill, part_whole, whole_of};
ghost use Rattle.index_core.specs.Rechecks.{CutsRecheckOff, RechecksAlone, same_whole};
ghost use Rattle.index_core.specs.Turns.{IsTurnedAnd, StartsTurn, TurnsAlone};
ghost use Rattle.index_law.specs.Facts.{version_in};
ghost use Rattle.index_core.specs.Withins.{ComesInTime, ComesTo, CutsOff, CutsTryOff, CutsTurnOff, EndsInTime};
ghost use Rattle.index_core.specs.Withins.{EndsWithin, RanAlone, TriedAlone, TriedBehindTurn, TriesInTime};

use crate::index::Core;
use crate::lone::LONE_STAMP;
use crate::party::{CoreCall, Whole, Within, lacks_line, lacks_node, needs_split};
use call_stages::{Once, Placed};
use cat_key::Name;
use node_ops::{Part, PartWords, Same};
use pm_words::Steps;
use std::sync::ledger::Ledger;
use updater::{TurnReply, Turned};

impl Core {
    /// A whole call of a party, with no other in flight, as `run_alone` makes it, within a budget of events, of which
    /// it takes one for each that it makes. It is `Unstarted` exactly where the budget was 0, and then nothing changes.
    /// It is `Cut` only where the budget is used up: then the call is in flight, or a turn of the updater is that it
    /// wanted, by the same party, and it has taken no more locks than one that is answered. A get changes no word,
    /// whatever it comes to.
    ///
    /// A turn of another party may have stopped under the updater lock: beside it each turn is `Cut`, and each call
    /// that wants one. So a turn is `Turned`, and a put `Full`, only with nothing else in flight; and where a turn is
    /// `Cut` there, others may still make their calls beside it. Behind a turn that is `Turned` all ways are short.
    ///
    /// On an index whose ways are short a call that needs no turn makes no more than `most_actions`, whatever it is
    /// answered, and is cut off only with a budget below that; so is a turn of the updater with one below
    /// `turn_actions`, where no other turn is in flight. A recheck is made again as long as it finds another version
    /// word than the one that was handed in; nothing changes that word meanwhile, so then it is cut off.
    pub fn run_within<L: Ledger>(
        &mut self,
        caller: u64,
        call: CoreCall,
        budget: &mut u64,
        steps: &mut Steps<L>,
    ) -> Within
        requires may { MayStart self.old.layout caller call }
        requires spare { most_writes call ≤ self.old.spare }
        requires still { IsStill caller self.old }
        ensures ends { EndsWithin result
            (λ whole. (MayBegin call → RanAlone self.old caller call self.new whole) × (IfTurn call
            (λ stamp release. IsTurnedAnd whole (λ turned. TurnsAlone self.old stamp release turned self.new))))
            ((MayBegin call → CutsOff self.old caller call self.new) ×
            IfTurn call (λ stamp release. CutsTurnOff self.old caller self.new))
            (self.new ≡ self.old) }
        ensures turn_stays { IfTurn call (λ stamp release. EndsWithin result
            (λ whole. IsQuiet self.old × IsQuiet self.new × HasShortWays self.new)
            (IsQuiet self.old → (party : ℕ) → party ≢ caller → IsStill party self.new)
            (self.new ≡ self.old)) }
        ensures rechecks { IfRecheck call (λ node version. EndsWithin result
            (λ whole. RechecksAlone self.old node version self.new whole)
            (CutsRecheckOff self.old caller node version self.new)
            (self.new ≡ self.old)) }
        ensures reads { IsGetCall call → KeepsWords self.old self.new }
        ensures budget { EndsWithin result (λ whole. 0 < budget.old) ((0 < budget.old) ×
            (budget.new ≡ 0)) (budget.old ≡ 0) }
        ensures events { steps.new + budget.new ≡ steps.old + budget.old }
        ensures in_time { MayBegin call →
            WithMost self.old caller call (EndsInTime result budget.old steps.old steps.new) }
        ensures turn_in_time { IfTurn call (λ stamp release. IsQuiet self.old →
            EndsInTime result budget.old steps.old steps.new (turn_actions self.old.layout)) }
        ensures recheck_in_time { IfRecheck call (λ node version.
            version_in self.old.layout self.old.words node ≡ version →
            EndsInTime result budget.old steps.old steps.new 2) }
        ensures index { IsIndex self.new }
    {
        let _ = &self.memory;
        if *budget == 0 {
            return Within::Unstarted;
        }
        match call {
            CoreCall::Part { low, count } => {
                within_part(self.part_within(caller, low, count, budget, steps))
            }
            CoreCall::Turn { stamp, release } => {
                within_turn(self.turn_within(caller, stamp, release, budget, steps))
            }
            CoreCall::Recheck { node, version } => {
                within_recheck(self.recheck_within(caller, node, version, budget, steps))
            }
            _ => within_name(self.name_within(caller, call, budget, steps)),
        }
    }

    /// A whole call on one name, as `name_alone` makes it, within a budget. `None` says that it was cut off.
    pub fn name_within<L: Ledger>(
        &mut self,
        caller: u64,
        call: CoreCall,
        budget: &mut u64,
        steps: &mut Steps<L>,
    ) -> Option<Once<Placed>>
        requires caller { caller < self.old.layout.callers }
        requires begins { MayBegin call }
        requires name { count_of call ≡ None }
        requires spare { most_writes call ≤ self.old.spare }
        requires still { IsStill caller self.old }
        ensures runs { ComesTo result (λ answer. RanAlone self.old caller call self.new (whole_of answer))
            (CutsOff self.old caller call self.new) }
        ensures reads { IsGetCall call → KeepsWords self.old self.new }
        ensures spent { result ≡ None → budget.new ≡ 0 }
        ensures events { steps.new + budget.new ≡ steps.old + budget.old }
        ensures in_time { WithMost self.old caller call (ComesInTime result budget.old steps.old steps.new) }
        ensures index { IsIndex self.new }
    {
        let Some(mut answer) = self.try_within(caller, &call, budget, steps) else {
            return None;
        };
        if lacks_line(&answer) {
            let Some(again) = self.try_behind_turn_within(caller, &call, budget, steps) else {
                return None;
            };
            answer = again;
        }
        if lacks_node(&answer) {
            let Some(again) = self.try_behind_turn_within(caller, &call, budget, steps) else {
                return None;
            };
            answer = again;
        }
        if needs_split(&answer) {
            let Some(again) = self.try_within(caller, &call, budget, steps) else {
                return None;
            };
            answer = again;
        }
        if let Once::Again(_) = answer {
            self.count_call(caller);
        }
        Some(answer)
    }

    /// A whole part of a scan, as `part_alone` makes it, within a budget.
    pub fn part_within<L: Ledger>(
        &mut self,
        caller: u64,
        low: Name,
        count: u64,
        budget: &mut u64,
        steps: &mut Steps<L>,
    ) -> Option<Once<PartWords>>
        requires caller { caller < self.old.layout.callers }
        requires still { IsStill caller self.old }
        ensures runs { ComesTo result
            (λ answer. RanAlone self.old caller (CoreCall.Part low count) self.new (part_whole answer))
            (CutsOff self.old caller (CoreCall.Part low count) self.new) }
        ensures spent { result ≡ None → budget.new ≡ 0 }
        ensures events { steps.new + budget.new ≡ steps.old + budget.old }
        ensures in_time { WithMost self.old caller (CoreCall.Part low count)
            (ComesInTime result budget.old steps.old steps.new) }
        ensures index { IsIndex self.new }
    {
        let Ok(()) = self.start_name(caller, CoreCall::Part { low, count }) else {
            unreachable!()
        };
        'steps: loop {
            if *budget == 0 {
                return None;
            }
            *budget -= 1;
            if self.has_listed(caller) {
                let words = self.listing(caller);
                self.step_call(caller, steps);
                return Some(Once::Done(words));
            }
            if let Some(answer) = self.step_call(caller, steps) {
                return Some(Part::early(answer));
            }
        }
    }

    /// A whole turn of the updater, as `turn_alone` makes it, within a budget. It begins with the updater lock, and as
    /// long as another party has that, it is begun again and again, each time by one event. So it is answered only
    /// where no other turn is in flight; and where it is cut off there with an event made, it has the lock itself.
    pub fn turn_within<L: Ledger>(
        &mut self,
        party: u64,
        stamp: u64,
        release: u64,
        budget: &mut u64,
        steps: &mut Steps<L>,
    ) -> Option<Turned>
        requires party { party ≤ self.old.layout.callers }
        requires stamp { 1 ≤ stamp }
        requires still { IsStill party self.old }
        ensures turns { ComesTo result (λ turned. TurnsAlone self.old stamp release turned self.new)
            (CutsTurnOff self.old party self.new) }
        ensures quiet { IfSome result (λ _. IsQuiet self.old × IsQuiet self.new) }
        ensures short { IfSome result (λ _. HasShortWays self.new) }
        ensures stays { result ≡ None → IsQuiet self.old → 0 < budget.old →
            (caller : ℕ) → caller ≢ party → IsStill caller self.new }
        ensures spent { result ≡ None → budget.new ≡ 0 }
        ensures events { steps.new + budget.new ≡ steps.old + budget.old }
        ensures in_time { IsQuiet self.old →
            ComesInTime result budget.old steps.old steps.new (turn_actions self.old.layout) }
        ensures before { IsIndex self.old }
        ensures index { IsIndex self.new }
    {
        self.begin_turn(party, stamp, release);
        'tries: loop {
            if *budget == 0 {
                return None;
            }
            *budget -= 1;
            match self.step_turn(party, steps) {
                None => {}
                Some(TurnReply::Turned(turned)) => return Some(turned),
                Some(TurnReply::Held { .. }) => self.begin_turn(party, stamp, release),
            }
        }
    }

    /// Begins a turn of the updater by a party that has nothing in flight.
    fn begin_turn(&mut self, party: u64, stamp: u64, release: u64)
        requires party { party ≤ self.old.layout.callers }
        requires stamp { 1 ≤ stamp }
        requires still { IsStill party self.old }
        ensures started { StartsTurn self.old party stamp release self.new }
        ensures before { IsIndex self.old }
        ensures index { IsIndex self.new }
    {
        let Ok(()) = self.start_turn(party, stamp, release) else {
            unreachable!()
        };
    }

    /// A turn of the updater by the caller itself, and one try of its call behind it, within a budget.
    fn try_behind_turn_within<L: Ledger>(
        &mut self,
        caller: u64,
        call: &CoreCall,
        budget: &mut u64,
        steps: &mut Steps<L>,
    ) -> Option<Once<Placed>>
        requires caller { caller < self.old.layout.callers }
        requires begins { MayBegin call.now }
        requires spare { most_writes call.now ≤ self.old.spare }
        requires still { IsStill caller self.old }
        ensures tries { ComesTo result (λ answer. TriedBehindTurn self.old caller call.now self.new answer)
            (CutsTryOff self.old caller call.now self.new) }
        ensures spent { result ≡ None → budget.new ≡ 0 }
        ensures events { steps.new + budget.new ≡ steps.old + budget.old }
        ensures before { IsIndex self.old }
        ensures index { IsIndex self.new }
    {
        let Some(_) = self.turn_within(caller, LONE_STAMP, LONE_STAMP, budget, steps) else {
            return None;
        };
        self.try_within(caller, call, budget, steps)
    }

    /// One try of a call, within a budget.
    fn try_within<L: Ledger>(
        &mut self,
        caller: u64,
        call: &CoreCall,
        budget: &mut u64,
        steps: &mut Steps<L>,
    ) -> Option<Once<Placed>>
        requires caller { caller < self.old.layout.callers }
        requires begins { MayBegin call.now }
        requires spare { most_writes call.now ≤ self.old.spare }
        requires still { IsStill caller self.old }
        ensures tries { ComesTo result (λ answer. TriedAlone self.old caller call.now self.new answer)
            (CutsTryOff self.old caller call.now self.new) }
        ensures reads { IsGetCall call.now → KeepsWords self.old self.new }
        ensures spent { result ≡ None → budget.new ≡ 0 }
        ensures events { steps.new + budget.new ≡ steps.old + budget.old }
        ensures in_time { TriesInTime self.old call.now result budget.old steps.old steps.new }
        ensures before { IsIndex self.old }
        ensures index { IsIndex self.new }
    {
        let Ok(()) = self.start_name(caller, *call) else {
            unreachable!()
        };
        'steps: loop {
            if *budget == 0 {
                return None;
            }
            *budget -= 1;
            if let Some(answer) = self.step_call(caller, steps) {
                return Some(answer);
            }
        }
    }
}

/// What a call on one name comes to.
fn within_name(answer: Option<Once<Placed>>) -> Within
    ensures { ComesTo answer (λ given. result ≡ Within.Answered (whole_of given)) (result ≡ Within.Cut) }
{
    match answer {
        Some(answer) => Within::Answered(Whole::of(answer)),
        None => Within::Cut,
    }
}

/// What a part of a scan comes to.
fn within_part(answer: Option<Once<PartWords>>) -> Within
    ensures { ComesTo answer (λ given. result ≡ Within.Answered (part_whole given)) (result ≡ Within.Cut) }
{
    match answer {
        Some(answer) => Within::Answered(Whole::of_part(answer)),
        None => Within::Cut,
    }
}

/// What a recheck comes to.
fn within_recheck(answer: Option<Same>) -> Within
    ensures { ComesTo answer (λ given. result ≡ Within.Answered (same_whole given)) (result ≡ Within.Cut) }
{
    match answer {
        Some(same) => Within::Answered(Whole::Same { place: same.place }),
        None => Within::Cut,
    }
}

/// What a turn of the updater comes to.
fn within_turn(answer: Option<Turned>) -> Within
    ensures { ComesTo answer (λ given. result ≡ Within.Answered (Whole.Turned given)) (result ≡ Within.Cut) }
{
    match answer {
        Some(turned) => Within::Answered(Whole::Turned(turned)),
        None => Within::Cut,
    }
}
