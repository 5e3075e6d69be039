//! A round of one caller that a crash ends, and the core that its image opens as.

ghost use Rattle.std.specs.Prelude.{◌≡◌, ℕ, ◌+◌, ◌*◌, ◌<◌, ◌≤◌, [], Some, All, IfOk, length, suc};
ghost use Rattle.version_lock.specs.Versions.{IsGeneration};
ghost use Rattle.index_law.specs.Anchors.{anchors_in};
ghost use Rattle.core_rounds.specs.index_core.specs.Fulls.{HasLowStamps};
ghost use Rattle.core_rounds.specs.index_core.specs.Indexes.{IsIndex, world};
ghost use Rattle.core_rounds.specs.index_core.specs.Lone.{IsQuiet};
ghost use Rattle.core_rounds.specs.CoreMaps.{IsOfRun, calls_left_of, writes_left_of};
ghost use Rattle.core_rounds.specs.LoneCalls.{AreLoneCalls, AreReportCalls};
ghost use Rattle.core_crashes.specs.Rounds.{IsPlayedLoneCrash};
ghost use Rattle.core_crashes.specs.Stops.{StopsOn};

use crate::crash_map::{CrashMap, CrashRun};
use crate::power::fail_power;
use cat_history::{CallerOp, CrashPlan, NoMemory, RoundPlan, settle};
use cat_text::RoundReport;
use core_rounds::index_core::Core;
use pm_words::Steps;
use std::alloc::Global;
use std::marker::Brand;
use std::sync::ledger::{Blank, Ledger};
use stopped_rounds::{StoppedRound, run_crash_round};

/// A round of one caller that a crash ended: what is reported of it, and the core that the image opens as which the
/// crash left.
#[derive(Drop)]
pub struct CrashedRound {
    pub report: RoundReport,
    pub core: Core,
}

/// Plays a round of one caller on the map of a core, each party within its budget of events, up to the crash of the
/// plan. Then power fails, the image that is left is opened in the next generation, and its map tells what became of a
/// write that was cut off without a place. Memory that runs out is the only refusal.
pub fn crash_round(
    alloc: Global,
    core: Core,
    plan: &RoundPlan,
    crash: &CrashPlan,
) -> Result<CrashedRound, NoMemory>
    requires index { IsIndex core }
    requires quiet { IsQuiet core }
    requires stamps { HasLowStamps core }
    requires next { IsGeneration (suc core.generation) }
    requires callers { All (λ a. a.caller < core.layout.callers) plan.now.ops }
    requires told { AreReportCalls plan.now.ops }
    requires lone { AreLoneCalls plan.now.ops }
    requires crash { plan.now.crash ≡ Some crash.now }
    requires budgets { length crash.now.budgets ≡ core.layout.callers }
    requires calls { length plan.now.ops * core.layout.nodes ≤ calls_left_of core }
    ensures { IfOk result (λ done. IsPlayedLoneCrash core plan.now crash.now done.report done.core) }
{
    let caller = lone_caller(plan.ops.as_slice());
    let budget = crash.budgets.as_slice()[caller as usize];
    let mut core = core;
    core.new_round()?;
    core.reserve(plan.ops.as_slice().len() as u64)?;
    let StoppedCore { round, core } = stop_on_core::<Brand, Brand>(
        alloc,
        core,
        caller,
        plan,
        budget,
        crash.updater_budget,
        Blank::new(1),
    )?;
    let core = fail_power(alloc, core, crash.seed)?;
    let StoppedRound {
        mut records,
        writes,
    } = round;
    settle(&mut records, core.base());
    let names = core.base().as_slice().len() as u64;
    Ok(CrashedRound {
        report: RoundReport {
            records,
            crashed: true,
            writes,
            names,
        },
        core,
    })
}

/// The caller of all the calls, or the first one, where there are none.
fn lone_caller(asked: &[CallerOp]) -> u64
    requires { AreLoneCalls asked.now }
    ensures lone { All (λ a. a.caller ≡ result) asked.now }
    ensures first { length asked.now ≡ 0 → result ≡ 0 }
{
    match asked.first() {
        Some(first) => first.caller,
        None => 0,
    }
}

/// A round that stopped, and the core with what was cut off in flight.
#[derive(Drop)]
struct StoppedCore {
    round: StoppedRound,
    core: Core,
}

/// Plays the round of this caller, within its budget, on a core in which a round begins; with a ledger for the steps of
/// the calls, which nobody reads, and the numbers of the run.
fn stop_on_core<L: Ledger, K: CrashRun>(
    alloc: Global,
    core: Core,
    caller: u64,
    plan: &RoundPlan,
    budget: u64,
    updater_budget: u64,
    blank: Blank,
) -> Result<StoppedCore, NoMemory>
    requires index { IsIndex core }
    requires quiet { IsQuiet core }
    requires stamps { HasLowStamps core }
    requires begins { core.history ≡ [] }
    requires caller { caller < core.layout.callers }
    requires told { AreReportCalls plan.now.ops }
    requires lone { All (λ a. a.caller ≡ caller) plan.now.ops }
    requires calls { length plan.now.ops * core.layout.nodes ≤ calls_left_of core }
    requires writes { length plan.now.ops ≤ writes_left_of core }
    requires name { blank.name ≡ L.name }
    requires parts { (blank.parts ≡ L.parts) × (0 < L.parts) }
    requires run { IsOfRun K.layout K.generation core }
    requires anchors { K.anchors ≡ anchors_in (world core) }
    ensures { IfOk result (λ done. StopsOn core plan.now budget updater_budget done.round done.core) }
{
    let (book, share) = blank.open::<L>();
    let steps = Steps::new(book, share);
    let mut map = CrashMap::<L, K>::of_core(core, caller, steps);
    let round = run_crash_round(alloc, &mut map, plan, budget, updater_budget)?;
    Ok(StoppedCore {
        round,
        core: map.into_core(),
    })
}
