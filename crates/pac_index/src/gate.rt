//! What is called between the steps of callers.

use crate::caller::Caller;

/// Is called between the steps of callers, and may hold them there.
pub trait Gate: Sync {
    /// Before the first step of the caller's call of this index.
    fn before(&self, caller: u64, index: u64);

    /// Before each step of the caller's call; `step` counts from 0 in each call, on through all its tries and turns.
    fn within(&self, caller: u64, step: u64);
}

/// A gate that holds nobody.
pub struct OpenGate;

impl Gate for OpenGate {
    fn before(&self, _caller: u64, _index: u64) {}

    fn within(&self, _caller: u64, _step: u64) {}
}

/// How a caller goes through one call: with the gate before each step, counted on through all that the call repeats.
#[derive(Drop)]
pub(crate) struct Pace<'g, G: Gate> {
    gate: &'g G,
    caller: u64,
    step: u64,
}

impl<'g, G: Gate> Pace<'g, G> {
    /// Before the first step of the caller's call of this index, if the caller has a step left.
    pub(crate) fn begin(gate: &'g G, caller: &Caller, index: u64) -> Pace<'g, G> {
        let number = caller.number();
        if !caller.is_spent() {
            gate.before(number, index);
        }
        Pace {
            gate,
            caller: number,
            step: 0,
        }
    }

    /// Before each step.
    pub(crate) fn step(&mut self) {
        self.gate.within(self.caller, self.step);
        self.step = self.step.saturating_add(1);
    }
}
