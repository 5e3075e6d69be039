//! Rechecks: whether what a part of a scan was told of its node is so still.
//!
//! A recheck loads two words and changes none. It is a call among others: it may be begun and stepped beside them, or
//! be made whole.

ghost use Rattle.std.specs.Prelude.{◌≡◌, ◌≢◌, ℕ, ◌+◌, ◌<◌, ◌↔◌, length, IsErr, None, OnErr, OnOk};
ghost use Rattle.index_core.specs.Indexes.{IsBusy, IsIndex, IsRechecking};
ghost use Rattle.index_core.specs.Lone.{IsQuiet, IsStill};
ghost use Rattle.index_core.specs.Rechecks.{CutsRecheckOff, RecheckSteps, RechecksAlone, StartsRecheck, same_whole};
ghost use Rattle.index_core.specs.Withins.{ComesInTime, ComesTo};
ghost use Rattle.index_law.specs.Facts.{version_in};

use crate::index::Core;
use crate::party::InFlight;
use call_stages::Once;
use node_ops::{Recheck, Same};
use pm_words::{Machine, Steps};
use std::sync::ledger::Ledger;

impl Core {
    /// Begins a recheck of a node by a caller, as `Core::start` does.
    pub(crate) fn start_recheck(
        &mut self,
        party: u64,
        node: u64,
        version: u64,
    ) -> Result<(), InFlight>
        requires party { party < self.old.layout.callers }
        requires node { node < self.old.layout.nodes }
        ensures in_flight { IsErr result ↔ IsBusy self.old party }
        ensures err { OnErr result (self.new ≡ self.old) }
        ensures started { OnOk result (StartsRecheck self.old party node version self.new) }
        ensures before { IsIndex self.old }
        ensures index { IsIndex self.new }
    {
        self.may_begin(party)?;
        let view = self.seen_by(party);
        let since = self.history().len() as u64;
        let recheck = Recheck::new(view, node, version);
        self.states[party as usize].begins_recheck(since, recheck);
        Ok(())
    }

    /// Takes one step of the party's recheck, as `Core::step` does. Returns its answer, if that ends it.
    pub(crate) fn step_recheck<L: Ledger>(
        &mut self,
        party: u64,
        steps: &mut Steps<L>,
    ) -> Option<Once<Same>>
        requires checks { IsRechecking self.old party }
        ensures stepped { RecheckSteps self.old party self.new result }
        ensures tick { steps.new ≡ steps.old + 1 }
        ensures index { IsIndex self.new }
    {
        let at = party as usize;
        let recheck = self.states[at].rechecking();
        let action = recheck.machine.action();
        let got = self.memory.act(action, steps);
        self.states[at].advance_recheck(got)
    }

    /// A whole recheck by a caller, with nothing else in flight, of a node whose version word is this one.
    pub(crate) fn recheck_alone<L: Ledger>(
        &mut self,
        caller: u64,
        node: u64,
        version: u64,
        steps: &mut Steps<L>,
    ) -> Same
        requires caller { caller < self.old.layout.callers }
        requires node { node < self.old.layout.nodes }
        requires version { version_in self.old.layout self.old.words node ≡ version }
        requires quiet { IsQuiet self.old }
        ensures alone { RechecksAlone self.old node version self.new (same_whole result) }
        ensures tick { steps.new ≡ steps.old + 2 }
        ensures index { IsIndex self.new }
    {
        let Ok(()) = self.start_recheck(caller, node, version) else {
            unreachable!()
        };
        'steps: loop {
            if let Some(answer) = self.step_recheck(caller, steps) {
                let Once::Done(same) = answer else {
                    unreachable!()
                };
                return same;
            }
        }
    }

    /// A whole recheck by a caller within a budget, with no other call in flight. As long as it finds another version
    /// word than this one, it is begun again and again, each time by two events; so then it is cut off.
    pub(crate) fn recheck_within<L: Ledger>(
        &mut self,
        caller: u64,
        node: u64,
        version: u64,
        budget: &mut u64,
        steps: &mut Steps<L>,
    ) -> Option<Same>
        requires caller { caller < self.old.layout.callers }
        requires node { node < self.old.layout.nodes }
        requires still { IsStill caller self.old }
        ensures ends { ComesTo result (λ same. RechecksAlone self.old node version self.new (same_whole same))
            (CutsRecheckOff self.old caller node version self.new) }
        ensures spent { result ≡ None → budget.new ≡ 0 }
        ensures events { steps.new + budget.new ≡ steps.old + budget.old }
        ensures in_time { version_in self.old.layout self.old.words node ≡ version →
            ComesInTime result budget.old steps.old steps.new 2 }
        ensures index { IsIndex self.new }
    {
        self.begin_recheck(caller, node, version);
        'tries: loop {
            if *budget == 0 {
                return None;
            }
            *budget -= 1;
            if let Some(answer) = self.step_recheck(caller, steps) {
                if let Once::Done(same) = answer {
                    return Some(same);
                }
                self.begin_recheck(caller, node, version);
            }
        }
    }

    /// Begins a recheck by a caller that has nothing in flight.
    fn begin_recheck(&mut self, caller: u64, node: u64, version: u64)
        requires caller { caller < self.old.layout.callers }
        requires node { node < self.old.layout.nodes }
        requires still { IsStill caller self.old }
        ensures started { StartsRecheck self.old caller node version self.new }
        ensures before { IsIndex self.old }
        ensures index { IsIndex self.new }
    {
        let Ok(()) = self.start_recheck(caller, node, version) else {
            unreachable!()
        };
    }
}
