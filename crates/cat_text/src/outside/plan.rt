//! Which calls of an object in memory fail.
ghost use Rattle.std.specs.Prelude.{◌≡◌, ◌≤◌, ◌↔◌, [], IsTrue, if◌then◌else◌};
ghost use Rattle.cat_text.specs.OutsideMemory.{CallPlan, IsNextToFail, after_call, after_fault};

use std::alloc::Global;
use std::marker::Model;

/// The calls of an object in memory: how many were made, how many of them failed, and the numbers
/// of those that are to fail. The first call has number 1. The count of calls stands still at
/// `u64::MAX`, and no call past it fails.
#[derive(Drop)]
pub struct FaultPlan {
    calls: u64,
    faults: u64,
    failing: Vec<u64>,
}

impl Model for FaultPlan {
    ghost Value = { CallPlan };

    ghost view = { λ p. record { calls = p.calls; faults = p.faults; failing = p.failing.items } };

    ghost invariant = { λ p. p.faults ≤ p.calls };
}

impl FaultPlan {
    /// A plan by which no call fails. It takes no memory.
    pub fn new(alloc: Global) -> FaultPlan
        ensures { result ≡ record { calls = 0; faults = 0; failing = [] } }
    {
        FaultPlan::failing_at(Vec::new(alloc))
    }

    /// A plan by which the calls with these numbers fail.
    pub fn failing_at(numbers: Vec<u64>) -> FaultPlan
        ensures { result ≡ record { calls = 0; faults = 0; failing = numbers.items } }
    {
        FaultPlan {
            calls: 0,
            faults: 0,
            failing: numbers,
        }
    }

    /// How many calls were made.
    pub fn calls(&self) -> u64
        ensures { result ≡ self.now.calls }
    {
        self.calls
    }

    /// How many calls failed.
    pub fn faults(&self) -> u64
        ensures { result ≡ self.now.faults }
    {
        self.faults
    }

    /// Counts one call more, and answers whether it fails.
    pub fn next_fails(&mut self) -> bool
        ensures fails { IsTrue result ↔ IsNextToFail self.old }
        ensures counts { self.new ≡ (if result then after_fault self.old else after_call self.old) }
    {
        let Some(number) = self.calls.checked_add(1) else {
            return false;
        };
        let fails = self.failing.contains(&number);
        self.calls = number;
        if fails {
            self.faults += 1;
        }
        fails
    }
}
