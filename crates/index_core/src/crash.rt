//! What a crash leaves of an index.

ghost use Rattle.std.specs.Prelude.{◌≡◌};

use crate::party::{CoreCall, PartyState, Rechecking};
use cat_history::NameOp;
use node_ops::{Recheck, Running};
use pm_words::{Image, MOST_WRITES};
use std::marker::Model;
use updater::MakeTurn;

/// What a crash leaves: the image of the durable words, and the calls that were in flight.
#[derive(Drop)]
pub struct Crashed {
    pub image: Image,
    pub cuts: Cuts,
}

/// The calls that a crash cut off, by party.
#[derive(Drop)]
pub struct Cuts {
    states: Vec<PartyState>,
}

/// A call that a crash cut off.
#[derive(Clone, Copy)]
pub struct CutCall {
    pub party: u64,
    pub call: CoreCall,
    /// The place of its write in the history, if it has one.
    pub place: Option<u64>,
}

impl Model for Cuts {
    ghost use Rattle.std.specs.Prelude.{List};
    ghost use Rattle.index_core.specs.declared.party.PartyState.{PartyState};
    ghost use Rattle.index_core.specs.Crashes.{AreRunning};

    ghost Value = { List PartyState };

    ghost view = { λ c. c.states.items };

    ghost invariant = { λ c. AreRunning c.states.items };
}

impl Cuts {
    ghost use Rattle.index_core.specs.Crashes.{AreRunning, cut_at};

    /// The calls in flight of these parties.
    pub(crate) fn of(states: Vec<PartyState>) -> Cuts
        requires { AreRunning states.items }
        ensures { result ≡ states.items }
    {
        Cuts { states }
    }

    /// The call of this party that was cut off, if one was in flight.
    pub fn get(&self, party: u64) -> Option<CutCall>
        ensures { result ≡ cut_at self.now party }
    {
        let state = self.states.get(party as usize)?;
        if !state.machine.flies() {
            return cut_turn(state.caller, &state.turn, state.recheck);
        }
        let machine = state.machine.running();
        Some(CutCall {
            party: state.caller,
            call: CoreCall::of(machine),
            place: machine.place(),
        })
    }
}

impl CoreCall {
    ghost use Rattle.node_ops.specs.RunningSteps.{IsRunning};
    ghost use Rattle.index_core.specs.Crashes.{call_in, recheck_in, turn_in};

    /// The call that a machine makes.
    pub(crate) fn of(machine: &Running) -> CoreCall
        requires { IsRunning machine.now }
        ensures { result ≡ call_in machine.now }
    {
        let limit = machine.limit().unwrap_or(MOST_WRITES);
        match machine.op() {
            NameOp::Put { name, value } => CoreCall::Put { name, value, limit },
            NameOp::Get { name: low } => match machine.count() {
                Some(count) => CoreCall::Part { low, count },
                None => CoreCall::Get { name: low },
            },
            NameOp::Del { name } => CoreCall::Del { name, limit },
        }
    }

    /// The call that a recheck is.
    fn of_recheck(recheck: Recheck) -> CoreCall
        ensures { result ≡ recheck_in recheck }
    {
        let (Recheck::Dating { node, version, .. } | Recheck::Checking { node, version, .. }) =
            recheck;
        CoreCall::Recheck { node, version }
    }

    /// The call that a turn of the updater is.
    fn of_turn(making: &MakeTurn) -> CoreCall
        ensures { result ≡ turn_in making.now }
    {
        let terms = match making {
            MakeTurn::Taking { terms } => terms,
            MakeTurn::Working { work } => &work.terms,
        };
        CoreCall::Turn {
            stamp: terms.stamp,
            release: terms.release,
        }
    }
}

ghost use Rattle.index_core.specs.Crashes.{cut_recheck, cut_turn};

/// The turn of this party that was cut off, if it made one, or else its recheck.
fn cut_turn(party: u64, turn: &Option<MakeTurn>, recheck: Option<Rechecking>) -> Option<CutCall>
    ensures { result ≡ cut_turn party turn.now recheck }
{
    match turn {
        None => cut_recheck(party, recheck),
        Some(making) => Some(CutCall {
            party,
            call: CoreCall::of_turn(making),
            place: None,
        }),
    }
}

/// The recheck of this party that was cut off, if it made one.
fn cut_recheck(party: u64, recheck: Option<Rechecking>) -> Option<CutCall>
    ensures { result ≡ cut_recheck party recheck }
{
    match recheck {
        None => None,
        Some(rechecking) => Some(CutCall {
            party,
            call: CoreCall::of_recheck(rechecking.machine),
            place: None,
        }),
    }
}
