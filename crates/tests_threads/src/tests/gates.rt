//! Gates that hold callers until calls of theirs have met, and one that counts calls and steps.

use pac_index::Gate;
use std::sync::atomic::{AtomicBool, AtomicU64, Ordering};
use std::thread::yield_now;

/// For how many turns a gate holds a caller at most.
const TURNS: u64 = 10_000_000;

/// Holds a caller until the moment has come, and counts that it came in time.
fn hold(moment: &AtomicBool, met: &AtomicU64) {
    for _ in 0..TURNS {
        if moment.load(Ordering::SeqCst) {
            met.fetch_add(1, Ordering::SeqCst);
            return;
        }
        yield_now();
    }
}

/// Holds caller 0 within its first call until caller 1 is within its second one, and caller 1 there until caller 0 is
/// within its second one. Caller 1 begins once caller 0 has begun.
#[derive(Drop)]
pub(crate) struct Beside {
    begun: AtomicBool,
    second: AtomicBool,
    next: AtomicBool,
    /// Within how many calls each of the two has been.
    zero: AtomicU64,
    one: AtomicU64,
    /// How many of the three waits ended in time.
    pub met: AtomicU64,
}

impl Beside {
    pub(crate) fn new() -> Beside {
        Beside {
            begun: AtomicBool::new(false),
            second: AtomicBool::new(false),
            next: AtomicBool::new(false),
            zero: AtomicU64::new(0),
            one: AtomicU64::new(0),
            met: AtomicU64::new(0),
        }
    }
}

impl Gate for Beside {
    fn before(&self, caller: u64, index: u64) {
        match (caller, index) {
            (0, 0) => self.begun.store(true, Ordering::SeqCst),
            (1, 0) => hold(&self.begun, &self.met),
            _ => {}
        }
    }

    fn within(&self, caller: u64, step: u64) {
        if step != 1 {
            return;
        }
        let index = match caller {
            0 => self.zero.fetch_add(1, Ordering::SeqCst),
            1 => self.one.fetch_add(1, Ordering::SeqCst),
            _ => return,
        };
        match (caller, index) {
            (0, 0) => hold(&self.second, &self.met),
            (0, 1) => self.next.store(true, Ordering::SeqCst),
            (1, 1) => {
                self.second.store(true, Ordering::SeqCst);
                hold(&self.next, &self.met);
            }
            _ => {}
        }
    }
}

/// Holds caller 0 before its sixth call, and caller 1 before its first one, until caller 2, who turns the updater, has
/// made a whole turn, whose steps it counts. That one begins once caller 0 has come to its sixth call.
#[derive(Drop)]
pub(crate) struct Turns {
    filled: AtomicBool,
    turned: AtomicBool,
    /// How many steps the whole turn took.
    pub steps: AtomicU64,
    /// How many of the three waits ended in time.
    pub met: AtomicU64,
}

impl Turns {
    pub(crate) fn new() -> Turns {
        Turns {
            filled: AtomicBool::new(false),
            turned: AtomicBool::new(false),
            steps: AtomicU64::new(0),
            met: AtomicU64::new(0),
        }
    }
}

impl Gate for Turns {
    fn before(&self, caller: u64, index: u64) {
        match (caller, index) {
            (0, 5) => {
                self.filled.store(true, Ordering::SeqCst);
                hold(&self.turned, &self.met);
            }
            (1, 0) => hold(&self.turned, &self.met),
            (2, 0) => hold(&self.filled, &self.met),
            (2, 1) => self.turned.store(true, Ordering::SeqCst),
            _ => {}
        }
    }

    fn within(&self, caller: u64, _step: u64) {
        if caller == 2 && !self.turned.load(Ordering::SeqCst) {
            self.steps.fetch_add(1, Ordering::SeqCst);
        }
    }
}

/// Counts the calls of caller 0, and its steps.
#[derive(Drop)]
pub(crate) struct Watch {
    /// How often it has begun a call.
    calls: AtomicU64,
    /// How many steps it has made in the call that began last, and in the one before.
    pub steps: AtomicU64,
    pub past: AtomicU64,
    /// How many calls and steps were not the next one.
    pub astray: AtomicU64,
}

impl Watch {
    pub(crate) fn new() -> Watch {
        Watch {
            calls: AtomicU64::new(0),
            steps: AtomicU64::new(0),
            past: AtomicU64::new(0),
            astray: AtomicU64::new(0),
        }
    }

    /// Notes one more of a count, and whether it is the next one.
    fn count(&self, count: &AtomicU64, number: u64) {
        if count.fetch_add(1, Ordering::SeqCst) != number {
            self.astray.fetch_add(1, Ordering::SeqCst);
        }
    }
}

impl Gate for Watch {
    fn before(&self, caller: u64, index: u64) {
        if caller == 0 {
            self.count(&self.calls, index);
            let steps = self.steps.swap(0, Ordering::SeqCst);
            self.past.store(steps, Ordering::SeqCst);
        }
    }

    fn within(&self, caller: u64, step: u64) {
        if caller == 0 {
            self.count(&self.steps, step);
        }
    }
}
