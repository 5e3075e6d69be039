//! Playing a generated round.

ghost use Rattle.std.specs.Prelude.{◌≡◌, ◌^◌, ◌<◌, ◌≤◌, IfOk};
ghost use Rattle.pm_words.specs.Layouts.{IsLayout};
ghost use Rattle.catalog_cli.specs.Headline.{IsSummaryOf};

use cat_history::NoMemory;
use cat_script::generated;
use cat_text::print_summary;
use crowd_rounds::core_rounds::summarize;
use crowd_rounds::pac_index::Gate;
use crowd_rounds::play_plans;
use pm_words::Layout;
use std::alloc::Global;
use std::slice;
use std::sync::Wait;
use std::thread::Threads;

/// How many nodes and slots the catalogue of a generated round has.
const NODES: u64 = 1024;

const SLOTS: u64 = 64;

/// Plays the calls that a seed makes, so many, for so many callers, and sums them up.
pub(crate) fn play_generated<R: Threads + Wait + Sync, G: Gate>(
    rt: &R,
    alloc: Global,
    seed: u64,
    count: u64,
    callers: u64,
    gate: &G,
) -> Result<Vec<u8>, NoMemory>
    requires seed { seed < 2 ^ 31 }
    requires count { count ≤ 100000 }
    requires some { 1 ≤ callers }
    requires few { callers ≤ 16 }
    ensures { IfOk result (λ text. IsSummaryOf seed count callers text.items) }
{
    let plan = generated(alloc, seed, count, callers)?;
    let played = play_plans(rt, alloc, &layout(callers), slice::from_ref(&plan), gate)?;
    let pairs = played.core.pairs(alloc)?;
    let round = &played.report.as_slice()[0];
    print_summary(alloc, &summarize(&plan, round, pairs.as_slice()))
}

/// The layout of the catalogue of a generated round.
fn layout(callers: u64) -> Layout
    requires some { 1 ≤ callers }
    requires few { callers ≤ 16 }
    ensures valid { IsLayout result }
    ensures nodes { result.nodes ≡ 1024 }
    ensures slots { result.slots ≡ 64 }
    ensures callers { result.callers ≡ callers }
{
    match Layout::new(NODES, SLOTS, callers) {
        Ok(layout) => layout,
        Err(_) => unreachable!(),
    }
}
