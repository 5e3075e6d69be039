//! Calls that are made with no other in flight.
//!
//! A call on one name answers little, and what a part of a scan lists takes some 2 KB. So each has a function of its
//! own, as a turn of the updater has, and a call on a name clears no such room.

ghost use Rattle.std.specs.Prelude.{◌≡◌, ◌+◌, ◌<◌, ◌≤◌, length, None};
ghost use Rattle.index_core.specs.declared.party.CoreCall.TheVariants as CoreCall;
ghost use Rattle.index_core.specs.CoreCalls.{IfRecheck, IfTurn, MayBegin, count_of, most_writes};
ghost use Rattle.index_core.specs.Costs.{ActsWithin, TriesWithin, turn_actions};
ghost use Rattle.index_core.specs.Indexes.{IsIndex};
ghost use Rattle.index_core.specs.Lone.{HasShortWays, IsQuiet, LoseAtMost, MayRunAlone, RunsAlone};
ghost use Rattle.index_core.specs.Lone.{TakesEachLock, TakesLocks};
ghost use Rattle.index_core.specs.Lone.{TriesAlone, TriesBehindTurn, locks_left, part_whole, whole_of};
ghost use Rattle.index_core.specs.Rechecks.{RechecksAlone};
ghost use Rattle.index_core.specs.Turns.{IsTurnedAnd, TurnsAlone};

use crate::index::Core;
use crate::party::{CoreCall, Whole, lacks_line, lacks_node, needs_split};
use call_stages::{Once, Placed};
use cat_key::Name;
use node_ops::{Part, PartWords};
use pm_words::Steps;
use std::sync::ledger::Ledger;

/// The stamp that the updater's turns of a party that is alone give to merged nodes, and the greatest that they
/// release: what is merged by then is FREE at once, since nobody else is about.
pub const LONE_STAMP: u64 = 1;

impl Core {
    /// A whole call of a party, with no other in flight. A turn of the updater is answered `Turned`, and leaves what
    /// `turn_alone` says. A recheck, which is of a node with this very version word, is answered `Same` at the length
    /// of the history, and changes nothing. Of a caller's call on a name the answer is told by its cause: the locks of
    /// the node are used up, else the clock has reached the limit, else there is no room for a new name, else it takes
    /// place. A put that finds its node full splits it, and is made again. A delete merges the node of its name with
    /// the next one where both together are left with at most half as many names as a node has slots. A part of a scan
    /// lists the names of its low name's node from that one on. A get changes no word. Of `spare` a call takes one at
    /// most, and only for a write that it places.
    ///
    /// Where the caller has no EMPTY log line, or no node is FREE, the updater's party makes a turn, which empties the
    /// log and frees merged nodes, and the call is made again. So it finds no room only where no turn could help.
    ///
    /// A call that needs no turn (`NeedsNoTurn`) keeps the search layer. It leaves one log line of its caller READY
    /// that was EMPTY, if it splits or merges, also where its node is worn when it is made again; and no other line's
    /// state changes.
    ///
    /// It makes at least one step, which `steps` counts, as do the calls below. On an index whose ways are short a call
    /// that needs no turn makes no more than `most_actions`, whatever it is answered: on any layout some 14,100 for a
    /// get and 58,400 for a put, and ten or twenty more for each log line that is READY. A turn makes at most
    /// `turn_actions`, and a recheck two.
    pub fn run_alone<L: Ledger>(
        &mut self,
        caller: u64,
        call: CoreCall,
        steps: &mut Steps<L>,
    ) -> Whole
        requires may { MayRunAlone self.old caller call }
        requires spare { most_writes call ≤ self.old.spare }
        requires quiet { IsQuiet self.old }
        ensures runs { MayBegin call → RunsAlone self.old caller call self.new result }
        ensures turns { IfTurn call (λ stamp release.
            IsTurnedAnd result (λ turned. TurnsAlone self.old stamp release turned self.new)) }
        ensures short { IfTurn call (λ stamp release. HasShortWays self.new) }
        ensures rechecks { IfRecheck call (λ node version. RechecksAlone self.old node version self.new result) }
        ensures quiet { IsQuiet self.new }
        ensures spare { self.old.spare + length self.old.history ≤ self.new.spare + length self.new.history }
        ensures each_lock { MayBegin call → TakesEachLock caller call self.old self.new }
        ensures locks { MayBegin call → TakesLocks caller call self.old self.new }
        ensures acts { steps.old < steps.new }
        ensures events { MayBegin call → ActsWithin self.old caller call steps.old steps.new }
        ensures turn_events { IfTurn call (λ stamp release. steps.new ≤ steps.old + turn_actions self.old.layout) }
        ensures recheck_events { IfRecheck call (λ node version. steps.new ≡ steps.old + 2) }
        ensures index { IsIndex self.new }
    {
        match call {
            CoreCall::Part { low, count } => {
                Whole::of_part(self.part_alone(caller, low, count, steps))
            }
            CoreCall::Turn { stamp, release } => {
                Whole::Turned(self.turn_alone(caller, stamp, release, steps))
            }
            CoreCall::Recheck { node, version } => {
                let same = self.recheck_alone(caller, node, version, steps);
                Whole::Same { place: same.place }
            }
            _ => Whole::of(self.name_alone(caller, call, steps)),
        }
    }

    /// A whole call on one name, as `run_alone` makes it: a put, a get or a delete. `Again` says that there is no room.
    pub fn name_alone<L: Ledger>(
        &mut self,
        caller: u64,
        call: CoreCall,
        steps: &mut Steps<L>,
    ) -> Once<Placed>
        requires caller { caller < self.old.layout.callers }
        requires begins { MayBegin call }
        requires name { count_of call ≡ None }
        requires spare { most_writes call ≤ self.old.spare }
        requires quiet { IsQuiet self.old }
        ensures runs { RunsAlone self.old caller call self.new (whole_of result) }
        ensures quiet { IsQuiet self.new }
        ensures spare { self.old.spare + length self.old.history ≤ self.new.spare + length self.new.history }
        ensures each_lock { TakesEachLock caller call self.old self.new }
        ensures locks { TakesLocks caller call self.old self.new }
        ensures acts { steps.old < steps.new }
        ensures events { ActsWithin self.old caller call steps.old steps.new }
        ensures index { IsIndex self.new }
    {
        let mut answer = self.try_alone(caller, &call, steps);
        if lacks_line(&answer) {
            answer = self.try_behind_turn(caller, &call, steps);
        }
        if lacks_node(&answer) {
            answer = self.try_behind_turn(caller, &call, steps);
        }
        if needs_split(&answer) {
            // The node is split now, and has room.
            answer = self.try_alone(caller, &call, steps);
        }
        if let Once::Again(_) = answer {
            self.count_call(caller);
        }
        answer
    }

    /// A whole part of a scan, as `run_alone` makes it: it lists the first `count` names from the low one on, of those
    /// that belong to the low one's node. It is answered `Done`: where its node can't be locked any more it goes
    /// without, so no node is too worn for it.
    pub fn part_alone<L: Ledger>(
        &mut self,
        caller: u64,
        low: Name,
        count: u64,
        steps: &mut Steps<L>,
    ) -> Once<PartWords>
        requires caller { caller < self.old.layout.callers }
        requires quiet { IsQuiet self.old }
        ensures runs { RunsAlone self.old caller (CoreCall.Part low count) self.new (part_whole result) }
        ensures quiet { IsQuiet self.new }
        ensures spare { self.old.spare + length self.old.history ≤ self.new.spare + length self.new.history }
        ensures each_lock { LoseAtMost 1 self.old self.new }
        ensures locks { locks_left self.old ≤ locks_left self.new + 1 }
        ensures acts { steps.old < steps.new }
        ensures events { ActsWithin self.old caller (CoreCall.Part low count) steps.old steps.new }
        ensures index { IsIndex self.new }
    {
        let Ok(()) = self.start_name(caller, CoreCall::Part { low, count }) else {
            unreachable!()
        };
        'steps: loop {
            if self.has_listed(caller) {
                let words = self.listing(caller);
                self.step_call(caller, steps);
                return Once::Done(words);
            }
            if let Some(answer) = self.step_call(caller, steps) {
                return Part::early(answer);
            }
        }
    }

    /// A turn of the updater, and one try of a call behind it, with no other in flight.
    fn try_behind_turn<L: Ledger>(
        &mut self,
        caller: u64,
        call: &CoreCall,
        steps: &mut Steps<L>,
    ) -> Once<Placed>
        requires caller { caller < self.old.layout.callers }
        requires begins { MayBegin call.now }
        requires spare { most_writes call.now ≤ self.old.spare }
        requires quiet { IsQuiet self.old }
        ensures tries { TriesBehindTurn self.old caller call.now self.new result }
        ensures quiet { IsQuiet self.new }
        ensures spare { self.old.spare + length self.old.history ≤ self.new.spare + length self.new.history }
        ensures acts { steps.old < steps.new }
        ensures index { IsIndex self.new }
    {
        let updater = self.layout().callers();
        self.turn_alone(updater, LONE_STAMP, LONE_STAMP, steps);
        self.try_alone(caller, call, steps)
    }

    /// One try of a call, with no other in flight.
    fn try_alone<L: Ledger>(
        &mut self,
        caller: u64,
        call: &CoreCall,
        steps: &mut Steps<L>,
    ) -> Once<Placed>
        requires caller { caller < self.old.layout.callers }
        requires begins { MayBegin call.now }
        requires spare { most_writes call.now ≤ self.old.spare }
        requires quiet { IsQuiet self.old }
        ensures tries { TriesAlone self.old caller call.now self.new result }
        ensures before { IsIndex self.old }
        ensures quiet { IsQuiet self.new }
        ensures spare { self.old.spare + length self.old.history ≤ self.new.spare + length self.new.history }
        ensures each_lock { LoseAtMost 1 self.old self.new }
        ensures locks { locks_left self.old ≤ locks_left self.new + 1 }
        ensures acts { steps.old < steps.new }
        ensures events { TriesWithin self.old call.now steps.old steps.new }
        ensures index { IsIndex self.new }
    {
        let Ok(()) = self.start_name(caller, *call) else {
            unreachable!()
        };
        'steps: loop {
            if let Some(answer) = self.burst(caller, steps) {
                return answer;
            }
        }
    }
}
