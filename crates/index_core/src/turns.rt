//! Turns of the updater, step by step beside calls.

ghost use Rattle.std.specs.Prelude.{◌≡◌, ◌+◌, ◌<◌, ◌≤◌, ◌↔◌, IsErr, OnErr, OnOk};
ghost use Rattle.index_core.specs.Costs.{turn_actions};
ghost use Rattle.index_core.specs.Indexes.{IsBusy, IsIndex, IsTurning};
ghost use Rattle.index_core.specs.Lone.{HasShortWays, IsQuiet};
ghost use Rattle.index_core.specs.Turns.{StartsTurn, TurnPasses, TurnSteps, TurnsAlone};

use crate::index::Core;
use crate::party::InFlight;
use pm_words::{Machine, Steps};
use std::sync::ledger::Ledger;
use updater::{MakeTurn, TurnReply, Turned};

impl Core {
    /// Begins a turn of the updater by the party, as `Core::start` does.
    pub(crate) fn start_turn(
        &mut self,
        party: u64,
        stamp: u64,
        release: u64,
    ) -> Result<(), InFlight>
        requires party { party ≤ self.old.layout.callers }
        requires stamp { 1 ≤ stamp }
        ensures in_flight { IsErr result ↔ IsBusy self.old party }
        ensures err { OnErr result (self.new ≡ self.old) }
        ensures started { OnOk result (StartsTurn self.old party stamp release self.new) }
        ensures before { IsIndex self.old }
        ensures index { IsIndex self.new }
    {
        self.may_begin(party)?;
        let making = MakeTurn::new(self.memory.layout(), self.generation, stamp, release);
        self.states[party as usize].turn = Some(making);
        Ok(())
    }

    /// A whole turn of the updater by the party, with nothing else in flight. It leaves every log line EMPTY, the
    /// search layer with the anchors of the listed nodes alone, and each GONE node FREE that isn't worn and whose stamp
    /// is at most `release`, where one that had no stamp has got this one. The map, the list and the history stay. From
    /// where the search layer leads then no walk makes a hop. It makes at least one step and at most `turn_actions`,
    /// which `steps` counts.
    pub fn turn_alone<L: Ledger>(
        &mut self,
        party: u64,
        stamp: u64,
        release: u64,
        steps: &mut Steps<L>,
    ) -> Turned
        requires party { party ≤ self.old.layout.callers }
        requires stamp { 1 ≤ stamp }
        requires quiet { IsQuiet self.old }
        ensures turns { TurnsAlone self.old stamp release result self.new }
        ensures short { HasShortWays self.new }
        ensures quiet { IsQuiet self.new }
        ensures acts { steps.old < steps.new }
        ensures events { steps.new ≤ steps.old + turn_actions self.old.layout }
        ensures index { IsIndex self.new }
    {
        let Ok(()) = self.start_turn(party, stamp, release) else {
            unreachable!()
        };
        'steps: loop {
            self.pass_nodes(party, steps);
            if let Some(reply) = self.step_turn(party, steps) {
                let TurnReply::Turned(turned) = reply else {
                    unreachable!()
                };
                return turned;
            }
        }
    }

    /// Where the party's turn goes over nodes, takes the steps that it makes so in a loop over them, with nothing
    /// between. This spares what `step_turn` does beside each: to find the turn, and what it is about to do.
    fn pass_nodes<L: Ledger>(&mut self, party: u64, steps: &mut Steps<L>)
        requires turns { IsTurning self.old party }
        ensures passes { TurnPasses self.old party self.new steps.old steps.new }
        ensures index { IsIndex self.new }
    {
        let Some(making) = &mut self.states[party as usize].turn else {
            unreachable!()
        };
        making.passes(&mut self.memory, steps);
    }

    /// Takes one step of the party's turn of the updater, as `Core::step` does. Returns its answer, if that ends it.
    pub(crate) fn step_turn<L: Ledger>(
        &mut self,
        party: u64,
        steps: &mut Steps<L>,
    ) -> Option<TurnReply>
        requires turns { IsTurning self.old party }
        ensures stepped { TurnSteps self.old party self.new result }
        ensures tick { steps.new ≡ steps.old + 1 }
        ensures index { IsIndex self.new }
    {
        let at = party as usize;
        let action = self.states[at].making().action();
        let got = self.memory.act(action, steps);
        self.states[at].advance_turn(got)
    }
}
