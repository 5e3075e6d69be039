//! Playing rounds of one caller on the index, one after another, each joined at its end.

ghost use Rattle.std.specs.Prelude.{◌≡◌, ℕ, ◌+◌, ◌*◌, ◌<◌, ◌≤◌, All, IfOk, IsTrue};
ghost use Rattle.pm_words.specs.Images.{Row};
ghost use Rattle.recovery.specs.Opened.{IsOpenedFrom};
ghost use Rattle.core_rounds.specs.CoreMaps.{ArePlayedLone, IsOfRun};
ghost use Rattle.core_rounds.specs.LoneCalls.{AreJoined, AreLoneRounds, AreReportCalls, calls_in};
ghost use Rattle.core_rounds.specs.LoneCalls.{AreJoinedLone, has_other, has_restart, is_crowd, restarts};
ghost use Rattle.core_rounds.specs.Rounds.{RoundsEndWithTurn};
ghost use Rattle.core_rounds.specs.Updated.{AreReportedFrom, WaitBehind, changes_of_rounds};
ghost use Rattle.core_rounds.specs.Waiting.{HaveNoTurns, puts_asked, writes_asked};

use crate::core_map::{CoreMap, RunOf};
use crate::round::run_lone_round;
use crate::updated_map::UpdatedMap;
use cat_history::{CallerOp, NoMemory, RoundPlan};
use cat_text::RoundReport;
use pm_words::Steps;
use recovery::index_core::Core;
use std::alloc::Global;
use std::marker::Brand;
use std::sync::ledger::{Blank, Ledger};

/// Rounds of one caller each that were played: what is reported of each, and the core that they leave.
#[derive(Drop)]
pub struct LoneRounds {
    pub reports: Vec<RoundReport>,
    pub core: Core,
}

/// Plays rounds of one caller each that no crash ends, one after another, on a core that an image was opened as, with
/// nothing done with it since. Memory that runs out is the only refusal.
pub fn play_lone(alloc: Global, core: Core, plans: &[RoundPlan]) -> Result<LoneRounds, NoMemory>
    requires opened { (image : Row) × IsOpenedFrom image core }
    requires playable { AreJoinedLone core.layout.callers plans.now }
    ensures { IfOk result (λ done. ArePlayedLone core plans.now done.reports.items done.core) }
{
    play_on_core::<Brand, Brand>(alloc, core, plans, Blank::new(1))
}

/// The same, with a ledger for the steps of the calls, which nobody reads, and the numbers of the run.
fn play_on_core<L: Ledger, K: RunOf>(
    alloc: Global,
    core: Core,
    plans: &[RoundPlan],
    blank: Blank,
) -> Result<LoneRounds, NoMemory>
    requires opened { (image : Row) × IsOpenedFrom image core }
    requires playable { AreJoinedLone core.layout.callers plans.now }
    requires name { blank.name ≡ L.name }
    requires parts { (blank.parts ≡ L.parts) × (0 < L.parts) }
    requires run { IsOfRun K.layout K.generation core }
    ensures { IfOk result (λ done. ArePlayedLone core plans.now done.reports.items done.core) }
{
    let mut core = core;
    core.reserve(calls_in(plans))?;
    let (book, share) = blank.open::<L>();
    let steps = Steps::new(book, share);
    let mut map = CoreMap::<L, K>::of_core(core, steps);
    let reports = play_on_map(alloc, &mut map, plans)?;
    Ok(LoneRounds {
        reports,
        core: map.into_core(),
    })
}

/// Plays the rounds, one after another, on a map that has calls left for all of them.
fn play_on_map<M: UpdatedMap>(
    alloc: Global,
    map: &mut M,
    plans: &[RoundPlan],
) -> Result<Vec<RoundReport>, NoMemory>
    requires lone { AreLoneRounds plans.now }
    requires joined { AreJoined plans.now }
    requires callers { All (λ plan. All (λ a. a.caller < (M.state map.old).callers) plan.ops) plans.now }
    requires told { All (λ plan. AreReportCalls plan.ops) plans.now }
    requires calls { calls_in plans.now * (M.state map.old).most ≤ (M.state map.old).calls_left }
    requires writes { calls_in plans.now ≤ (M.state map.old).writes_left }
    ensures played { IfOk result
        (λ reports. AreReportedFrom (M.state map.old) plans.now reports.items (M.state map.new)) }
    ensures calls_left { IfOk result (λ _. (calls : ℕ) →
        (calls + calls_in plans.now) * (M.state map.old).most ≤ (M.state map.old).calls_left →
        calls * (M.state map.old).most ≤ (M.state map.new).calls_left) }
    ensures settled { IfOk result (λ _. RoundsEndWithTurn plans.now → M.is_settled map.new) }
    ensures waits { IfOk result (λ reports. HaveNoTurns plans.now → WaitBehind (M.waits map.old) (M.waits map.new)
        (changes_of_rounds (M.state map.old) reports.items) (writes_asked plans.now) (puts_asked plans.now)) }
{
    map.has_shape();
    let mut rounds = Vec::with_capacity(alloc, plans.len())?;
    for plan in plans {
        rounds.push(run_lone_round(alloc, map, plan)?)?;
    }
    Ok(rounds)
}

/// How many calls the rounds have in all.
pub fn calls_in(plans: &[RoundPlan]) -> u64
    requires { calls_in plans.now ≤ 100000 }
    ensures { result ≡ calls_in plans.now }
{
    let mut calls = 0;
    for plan in plans {
        calls += plan.ops.as_slice().len() as u64;
    }
    calls
}

/// How many times the index is opened again among these rounds.
pub fn restarts(plans: &[RoundPlan]) -> u64
    ensures { result ≡ restarts plans.now }
{
    let mut restarts = 0;
    for plan in plans {
        if has_restart(plan) {
            restarts += 1;
        }
    }
    restarts
}

/// Whether the index is opened again behind a round: a crash ends it, or several callers have calls in it.
pub fn has_restart(plan: &RoundPlan) -> bool
    ensures { result ≡ has_restart plan.now }
{
    plan.crash.is_some() || is_crowd(plan.ops.as_slice())
}

/// Whether several callers have calls.
pub fn is_crowd(asked: &[CallerOp]) -> bool
    ensures { result ≡ is_crowd asked.now }
{
    match asked.first() {
        Some(first) => has_other(first.caller, asked),
        None => false,
    }
}

/// Whether some call is of another caller than this one.
fn has_other(caller: u64, asked: &[CallerOp]) -> bool
    ensures { result ≡ has_other caller asked.now }
{
    for call in asked {
        if call.caller != caller {
            return true;
        }
    }
    false
}
