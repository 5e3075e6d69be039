//! The top call on words and a script, over an outside in memory.

use cat_text::{FaultPlan, MemoryShelf, MemorySink, MemorySource};
use catalog_cli::{Status, catalog};
use pac_index::{Gate, OpenGate};
use std::alloc::{AllocGlobal, Global};
use std::sync::Wait;
use std::thread::Threads;

/// How many bytes a call of the source or the sink moves, and which read and which write fail; none does where the
/// number is 0.
#[derive(Clone, Copy)]
pub(crate) struct Outside {
    pub largest: u64,
    pub failing_read: u64,
    pub failing_write: u64,
}

/// An outside that moves many bytes at once and never fails.
pub(crate) const SOUND: Outside = Outside {
    largest: 4096,
    failing_read: 0,
    failing_write: 0,
};

/// The plan by which the call of this number fails; none does where it is 0.
pub(crate) fn plan_of(alloc: Global, failing: u64) -> Option<FaultPlan> {
    let mut numbers = Vec::new(alloc);
    numbers.push(failing).ok()?;
    Some(FaultPlan::failing_at(numbers))
}

/// The words of a command.
fn words_of(alloc: Global, line: &str) -> Option<Vec<String>> {
    let mut words = Vec::new(alloc);
    for word in line.split_whitespace() {
        words.push(String::from_str(alloc, word).ok()?).ok()?;
    }
    Some(words)
}

/// Runs a command with its script on the files of a shelf: the exit code, and what is written. None where memory runs
/// out, where a refusal writes something, or where a run that ends well leaves some of its script.
pub(crate) fn run<R: AllocGlobal + Threads + Wait + Sync>(
    rt: &R,
    shelf: &mut MemoryShelf,
    line: &str,
    script: &str,
    outside: &Outside,
) -> Option<(u8, Vec<u8>)> {
    run_gated(rt, shelf, line, script, outside, &OpenGate)
}

/// The same, with a gate between the steps of callers.
pub(crate) fn run_gated<R: AllocGlobal + Threads + Wait + Sync, G: Gate>(
    rt: &R,
    shelf: &mut MemoryShelf,
    line: &str,
    script: &str,
    outside: &Outside,
    gate: &G,
) -> Option<(u8, Vec<u8>)> {
    let alloc = rt.alloc();
    let words = words_of(alloc, line)?;
    let bytes = Vec::from_slice(alloc, script.as_bytes()).ok()?;
    let largest = outside.largest.max(1) as usize;
    let mut source = MemorySource::new(bytes, largest, plan_of(alloc, outside.failing_read)?);
    let mut sink = MemorySink::new(alloc, largest, plan_of(alloc, outside.failing_write)?);
    let status = catalog(rt, alloc, &words, &mut source, &mut sink, shelf, gate);
    let is_told = match status {
        Status::Done => source.left().is_empty(),
        Status::Write => true,
        _ => sink.written().is_empty(),
    };
    if !is_told {
        return None;
    }
    let written = Vec::from_slice(alloc, sink.written()).ok()?;
    Some((status.code(), written))
}
