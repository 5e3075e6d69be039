//! Rounds of several callers whose gate holds them, so that they end in time only where their calls run beside each
//! other.

use super::gates::{Beside, Turns};
use super::running::{SOUND, plan_of, run_gated};
use cat_text::MemoryShelf;
use pac_index::Gate;
use std::alloc::AllocGlobal;
use std::sync::Wait;
use std::sync::atomic::Ordering;
use std::test::Fail;
use std::thread::Threads;

/// Whether `play` on eight nodes of four slots for two callers is done with this script, and its report has this last
/// line.
fn ends_with<R: AllocGlobal + Threads + Wait + Sync, G: Gate>(
    rt: &R,
    script: &str,
    last: &str,
    gate: &G,
) -> Option<bool> {
    let mut shelf = MemoryShelf::new(rt.alloc(), plan_of(rt.alloc(), 0)?);
    let (code, written) = run_gated(rt, &mut shelf, "play 8 4 2", script, &SOUND, gate)?;
    Some(code == 0 && written.ends_with(last.as_bytes()))
}

#[test]
fn callers_run_beside_each_other(rt: HostRuntime) -> Result<(), Fail> {
    let gate = Beside::new();
    let script = "0 put a 1\n0 put b 2\n0 put c 3\n0 put d 4\n0 put e 5\njoin\n\
        0 put a 7\n0 put b 8\n1 get d\n1 get e\n";
    let ended = ends_with(&rt, script, "\njoin 2 names 5\n", &gate);
    assert!(rt; ended == Some(true));
    assert!(rt; gate.met.load(Ordering::SeqCst) == 3);
    Ok(())
}

/// The turn that the gate waits for takes the lock, loads the states of 16 log lines, carries out the one of the split,
/// loads the statuses of 8 nodes twice, and gives the lock back. That line takes 6 steps for its fields, 5 for the floor,
/// 15 for the walk over one hop, 1 for the version word again, 74 for the search layer, and 1 to be EMPTY.
#[test]
fn the_updater_turns_beside_callers(rt: HostRuntime) -> Result<(), Fail> {
    let gate = Turns::new();
    let script =
        "updater 1\n0 put a 1\n0 put b 2\n0 put c 3\n0 put d 4\n0 put e 5\n0 get a\n1 get a\n";
    let ended = ends_with(&rt, script, "\njoin 5 names 5\n", &gate);
    assert!(rt; ended == Some(true));
    let carried = 6 + 5 + 15 + 1 + 74 + 1;
    let counts = [
        gate.met.load(Ordering::SeqCst),
        gate.steps.load(Ordering::SeqCst),
    ];
    assert!(rt; counts == [3, 1 + 16 + carried + 8 + 8 + 1]);
    Ok(())
}
