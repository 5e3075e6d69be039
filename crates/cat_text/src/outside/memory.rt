//! A source and a sink in memory, whose calls fail by a plan and move at most so many bytes.
ghost use Rattle.std.specs.Prelude.{◌≡◌, ◌≢◌, ◌+◌, ◌<◌, ◌≤◌, ◌↔◌, ◌++◌, [], Some, length, take, drop, min, vec_len};
ghost use Rattle.std.specs.Prelude.{IfOk, IsErr, OnOk, OnErr};
ghost use Rattle.cat_text.specs.OutsideMemory.{Feed, Store, IsNextToFail, after_call, after_fault};

use super::fault::OutsideFault;
use super::plan::FaultPlan;
use super::sink::{Sink, WriteFault};
use super::source::{Failed, Source};
use std::alloc::Global;
use std::marker::Model;

/// A source over bytes in memory.
#[derive(Drop)]
pub struct MemorySource {
    bytes: Vec<u8>,
    place: usize,
    largest: usize,
    plan: FaultPlan,
}

impl Model for MemorySource {
    ghost Value = { Feed };

    ghost view = { λ s. record { left = drop s.place s.bytes.items; largest = s.largest; plan = s.plan } };

    ghost invariant = { λ s. (s.place ≤ vec_len s.bytes) × (0 < s.largest) };
}

impl MemorySource {
    /// A source of these bytes whose reads fail by the plan and give at most `largest` bytes each.
    pub fn new(bytes: Vec<u8>, largest: usize, plan: FaultPlan) -> MemorySource
        requires { 0 < largest }
        ensures { result ≡ record { left = bytes.items; largest = largest; plan = plan } }
    {
        MemorySource {
            bytes,
            place: 0,
            largest,
            plan,
        }
    }

    /// The bytes that are left.
    pub fn left(&self) -> &[u8]
        ensures { result.now ≡ self.now.left }
    {
        &self.bytes[self.place..]
    }

    /// The reads so far.
    pub fn plan(&self) -> &FaultPlan
        ensures { result.now ≡ self.now.plan }
    {
        &self.plan
    }
}

impl Source for MemorySource {
    ghost left = { λ s. Some s.left };

    ghost faults = { λ s. s.plan.faults };

    ghost steady = { λ s. s.plan.failing ≡ [] };

    fn read(&mut self, into: &mut [u8]) -> Result<usize, Failed>
        ensures fails { IsErr result ↔ IsNextToFail self.old.plan }
        ensures count { IfOk result (λ taken. taken ≡ min (min (length into.old) self.old.largest)
            (length self.old.left)) }
        ensures within { IfOk result (λ taken. taken ≤ length into.new) }
        ensures takes { IfOk result (λ taken. self.old.left ≡ take taken into.new ++ self.new.left) }
        ensures ends { IfOk result (λ taken. taken ≡ 0 → 0 < length into.new → self.new.left ≡ []) }

        // What stays.
        ensures untouched { IfOk result (λ taken. drop taken into.new ≡ drop taken into.old) }
        ensures keeps { OnErr result (self.new.left ≡ self.old.left) }
        ensures largest { self.new.largest ≡ self.old.largest }

        ensures call_counted { OnOk result (self.new.plan ≡ after_call self.old.plan) }
        ensures fault_counted { OnErr result (self.new.plan ≡ after_fault self.old.plan) }
    {
        if self.plan.next_fails() {
            return Err(Failed);
        }
        let rest = self.left();
        let taken = into.len().min(self.largest).min(rest.len());
        into[..taken].copy_from_slice(&rest[..taken]);
        self.place += taken;
        Ok(taken)
    }
}

/// A sink that keeps its bytes in memory.
#[derive(Drop)]
pub struct MemorySink {
    bytes: Vec<u8>,
    largest: usize,
    plan: FaultPlan,
}

impl Model for MemorySink {
    ghost Value = { Store };

    ghost view = { λ s. record { written = s.bytes.items; largest = s.largest; plan = s.plan } };

    ghost invariant = { λ s. 0 < s.largest };
}

impl MemorySink {
    /// An empty sink whose writes fail by the plan and take at most `largest` bytes each.
    pub fn new(alloc: Global, largest: usize, plan: FaultPlan) -> MemorySink
        requires { 0 < largest }
        ensures { result ≡ record { written = []; largest = largest; plan = plan } }
    {
        MemorySink {
            bytes: Vec::new(alloc),
            largest,
            plan,
        }
    }

    /// The bytes that were written.
    pub fn written(&self) -> &[u8]
        ensures { result.now ≡ self.now.written }
    {
        &self.bytes
    }

    /// The writes so far.
    pub fn plan(&self) -> &FaultPlan
        ensures { result.now ≡ self.now.plan }
    {
        &self.plan
    }
}

impl Sink for MemorySink {
    ghost written = { λ s. Some s.written };

    ghost faults = { λ s. s.plan.faults };

    ghost steady = { λ s. s.plan.failing ≡ [] };

    fn write(&mut self, piece: &[u8]) -> Result<usize, WriteFault>
        ensures fails { (result ≡ Err OutsideFault.Failed) ↔ IsNextToFail self.old.plan }
        ensures count { IfOk result (λ taken. taken ≡ min (length piece.now) self.old.largest) }
        ensures takes { IfOk result (λ taken. 0 < length piece.now → 0 < taken) }
        ensures appends { IfOk result (λ taken. self.new.written ≡ self.old.written ++ take taken piece.now) }

        // What stays.
        ensures keeps { OnErr result (self.new.written ≡ self.old.written) }
        ensures largest { self.new.largest ≡ self.old.largest }

        ensures call_counted { result ≢ Err OutsideFault.Failed → self.new.plan ≡ after_call self.old.plan }
        ensures fault_counted { result ≡ Err OutsideFault.Failed → self.new.plan ≡ after_fault self.old.plan }
    {
        if self.plan.next_fails() {
            return Err(WriteFault::Failed);
        }
        let taken = piece.len().min(self.largest);
        self.bytes.extend_from_slice(&piece[..taken])?;
        Ok(taken)
    }
}
