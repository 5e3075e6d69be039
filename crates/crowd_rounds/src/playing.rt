//! Playing the rounds of a script.

ghost use Rattle.std.specs.Prelude.{◌≡◌, ℕ, ◌+◌, ◌/◌, ◌*◌, ◌<◌, ◌≤◌, ◌^◌, [], ◌∷◌, All};
ghost use Rattle.std.specs.Prelude.{IfOk, length, suc, take, true};
ghost use Rattle.std.specs.FinMap.{empty, len};
ghost use Rattle.cat_text.specs.ReportGrammar.{IsReportRound};
ghost use Rattle.pm_words.specs.Images.{Row};
ghost use Rattle.pm_words.specs.Layouts.{IsLayout};
ghost use Rattle.version_lock.specs.Versions.{IsGeneration};
ghost use Rattle.index_law.specs.Anchors.{anchors_in};
ghost use Rattle.thread_rounds.specs.index_core.specs.Fulls.{HasLowStamps};
ghost use Rattle.thread_rounds.specs.index_core.specs.Indexes.{IsIndex, map_of_index, world};
ghost use Rattle.thread_rounds.specs.index_core.specs.Lone.{IsQuiet};
ghost use Rattle.thread_rounds.specs.index_core.specs.Weights.{weight_of};
ghost use Rattle.core_crashes.specs.recovery.specs.Opened.{IsOpenedFrom};
ghost use Rattle.core_crashes.specs.core_rounds.specs.CoreMaps.{HasNoLines, Waits, calls_left_of};
ghost use Rattle.core_crashes.specs.core_rounds.specs.CrashWork.{CrashRoundsWork};
ghost use Rattle.core_crashes.specs.core_rounds.specs.LoneCalls.{AreJoined, AreLoneRounds, AreReportCalls, calls_in};
ghost use Rattle.core_crashes.specs.core_rounds.specs.LoneCalls.{AreJoinedLone, has_restart, restarts};
ghost use Rattle.core_crashes.specs.core_rounds.specs.Rounds.{ArePlayed, RoundsEndWithTurn};
ghost use Rattle.core_crashes.specs.core_rounds.specs.Waiting.{HaveNoTurns, changes_made, puts_asked, writes_asked};
ghost use Rattle.crowd_rounds.specs.Segments.{AreFirstPlain, AreFirstPlayed, ArePlainPlayed, ArePlayable};
ghost use Rattle.crowd_rounds.specs.Segments.{ArePlayedOn, HasBudgets, IsPlayedRestart, WorkOn};

use crate::crowd::{Restarted, play_crowd};
use cat_history::{Items, NoMemory, RoundPlan};
use cat_text::Report;
use core_crashes::core_rounds::{LoneRounds, has_restart, is_crowd, play_lone, restarts};
use core_crashes::recovery::open_fresh;
use core_crashes::{CrashedRound, crash_round};
use pm_words::Layout;
use std::alloc::Global;
use std::sync::Wait;
use std::thread::Threads;
use thread_rounds::index_core::Core;
use thread_rounds::pac_index::Gate;

/// Rounds that were played: their report, and the core that they leave, with no call in flight.
#[derive(Drop)]
pub struct PlayedRounds {
    pub report: Report,
    pub core: Core,
}

/// Plays the rounds, one after another, from an empty catalogue of this layout.
///
/// In a round of several callers each waits for nodes that others hold, and `gate` is called before each call and
/// before each of its steps. Memory that runs out is the only refusal.
pub fn play_plans<R: Threads + Wait + Sync, G: Gate>(
    rt: &R,
    alloc: Global,
    layout: &Layout,
    plans: &[RoundPlan],
    gate: &G,
) -> Result<PlayedRounds, NoMemory>
    requires layout { IsLayout layout.now }
    requires callers { All (λ plan. All (λ a. a.caller < layout.now.callers) plan.ops) plans.now }
    requires told { All (λ plan. AreReportCalls plan.ops) plans.now }
    requires limits { All (λ plan. plan.limit ≤ 2 ^ 62) plans.now }
    requires budgets { All (HasBudgets layout.now.callers) plans.now }
    // So there are generations enough.
    requires rounds { length plans.now ≤ 1001 }
    requires calls { calls_in plans.now ≤ 100000 }
    ensures played { IfOk result (λ done. ArePlayed layout.now.slots layout.now.nodes (layout.now.slots / 2) 0 empty
        ([] ∷ []) plans.now done.report (map_of_index done.core) (anchors_in (world done.core))) }
    ensures report { IfOk result (λ done. All IsReportRound done.report) }
    // The empty catalogue is one member.
    ensures works { IfOk result (λ done. CrashRoundsWork layout.now.slots layout.now.nodes (layout.now.slots / 2) true 1
        plans.now done.report) }
{
    let core = open_fresh(alloc, *layout)?;
    play_rounds(rt, alloc, core, plans, gate)
}

/// Plays the rounds, one after another, on a core that an image was opened as, with nothing done with it since.
///
/// Behind each round of several callers the image is opened again, and so it is behind each one that a crash ends; that
/// takes the next generation. Memory that runs out is the only refusal.
pub fn play_rounds<R: Threads + Wait + Sync, G: Gate>(
    rt: &R,
    alloc: Global,
    core: Core,
    plans: &[RoundPlan],
    gate: &G,
) -> Result<PlayedRounds, NoMemory>
    requires opened { (image : Row) × IsOpenedFrom image core }
    requires playable { ArePlayable core plans.now }
    // Each round is legal and reported, and the core has the map and the shape that follow the last one.
    ensures played { IfOk result (λ done. ArePlayed core.layout.slots core.layout.nodes (weight_of core)
        (len (map_of_index core)) (map_of_index core) (anchors_in (world core)) plans.now done.report
        (map_of_index done.core) (anchors_in (world done.core))) }
    ensures report { IfOk result (λ done. All IsReportRound done.report) }
    // A crash round before which the index was just opened has its calls answered in time.
    ensures works { IfOk result (λ done. WorkOn core plans.now done.report) }
    ensures layout { IfOk result (λ done. done.core.layout ≡ core.layout) }
    ensures generation { IfOk result (λ done. done.core.generation ≡ core.generation + restarts plans.now) }
    ensures index { IfOk result (λ done. IsIndex done.core) }
    ensures quiet { IfOk result (λ done. IsQuiet done.core) }
    // Where the last round ends with a turn, no log line waits.
    ensures settled { IfOk result (λ done. RoundsEndWithTurn plans.now → HasNoLines done.core) }
    // Without turns the changes of the shape wait that the calls of one caller's joined rounds make.
    ensures waits { IfOk result (λ done. AreLoneRounds plans.now → AreJoined plans.now → HaveNoTurns plans.now →
        (changes lines puts : ℕ) → Waits core changes (lines + writes_asked plans.now) (puts + puts_asked plans.now) →
        Waits done.core (changes + changes_made core.layout.slots (map_of_index core) (anchors_in (world core))
        done.report) lines puts) }
{
    if restarts(plans) == 0 {
        let LoneRounds { reports, core } = play_lone(alloc, core, plans)?;
        return Ok(PlayedRounds {
            report: Items::of(reports),
            core,
        });
    }
    play_mixed(rt, alloc, core, plans, gate)
}

/// Plays rounds behind some of which the index is opened again: the ones between two openings, and so on.
fn play_mixed<R: Threads + Wait + Sync, G: Gate>(
    rt: &R,
    alloc: Global,
    core: Core,
    plans: &[RoundPlan],
    gate: &G,
) -> Result<PlayedRounds, NoMemory>
    requires opened { (image : Row) × IsOpenedFrom image core }
    requires playable { ArePlayable core plans.now }
    ensures { IfOk result (λ done. ArePlayedOn core plans.now done.report done.core) }
{
    let mut core = core;
    let mut reports = Vec::new(alloc);
    let mut at = 0;
    while at < plans.len() {
        let LoneRounds {
            reports: mut told,
            core: next,
        } = play_segment(rt, alloc, core, &plans[at..], gate)?;
        at += told.len();
        reports.append(&mut told)?;
        core = next;
    }
    Ok(PlayedRounds {
        report: Items::of(reports),
        core,
    })
}

/// Plays the rounds up to the first one behind which the index is opened again and that one, or all of them, where
/// there is none. Where some are left, an image was opened as the core.
fn play_segment<R: Threads + Wait + Sync, G: Gate>(
    rt: &R,
    alloc: Global,
    core: Core,
    plans: &[RoundPlan],
    gate: &G,
) -> Result<LoneRounds, NoMemory>
    requires opened { (image : Row) × IsOpenedFrom image core }
    requires playable { ArePlayable core plans.now }
    ensures first { IfOk result (λ done. AreFirstPlayed core plans.now done.reports.items done.core) }
    ensures some { IfOk result (λ done. 0 < length plans.now → 0 < length done.reports.items) }
    ensures works { IfOk result (λ done. WorkOn core (take (length done.reports.items) plans.now) done.reports.items) }
    ensures opened { IfOk result (λ done. length done.reports.items < length plans.now →
        (image : Row) × IsOpenedFrom image done.core) }
{
    let count = plain_at_first(plans);
    let LoneRounds { mut reports, core } = play_plain(alloc, core, &plans[..count])?;
    if count == plans.len() {
        return Ok(LoneRounds { reports, core });
    }
    let Restarted { report, core } = play_restart(rt, alloc, core, &plans[count], gate)?;
    reports.push(report)?;
    Ok(LoneRounds { reports, core })
}

/// Plays rounds of one caller each that no crash ends, one after another. Where there are none, the core stays as it
/// was opened.
fn play_plain(alloc: Global, core: Core, plans: &[RoundPlan]) -> Result<LoneRounds, NoMemory>
    requires opened { (image : Row) × IsOpenedFrom image core }
    requires playable { AreJoinedLone core.layout.callers plans.now }
    ensures { IfOk result (λ done. ArePlainPlayed core plans.now done.reports.items done.core) }
{
    if plans.is_empty() {
        return Ok(LoneRounds {
            reports: Vec::new(alloc),
            core,
        });
    }
    play_lone(alloc, core, plans)
}

/// How many rounds come before the first one behind which the index is opened again.
fn plain_at_first(plans: &[RoundPlan]) -> usize
    ensures { AreFirstPlain plans.now result }
{
    for count in 0..plans.len() {
        if has_restart(&plans[count]) {
            return count;
        }
    }
    plans.len()
}

/// Plays a round behind which the index is opened again: one of several callers, or one of one caller that a crash
/// ends.
fn play_restart<R: Threads + Wait + Sync, G: Gate>(
    rt: &R,
    alloc: Global,
    core: Core,
    plan: &RoundPlan,
    gate: &G,
) -> Result<Restarted, NoMemory>
    requires index { IsIndex core }
    requires quiet { IsQuiet core }
    requires stamps { HasLowStamps core }
    requires next { IsGeneration (suc core.generation) }
    requires callers { All (λ a. a.caller < core.layout.callers) plan.now.ops }
    requires told { AreReportCalls plan.now.ops }
    requires limit { plan.now.limit ≤ 2 ^ 62 }
    requires restart { has_restart plan.now ≡ true }
    requires budgets { HasBudgets core.layout.callers plan.now }
    requires calls { length plan.now.ops * core.layout.nodes ≤ calls_left_of core }
    ensures { IfOk result (λ done. IsPlayedRestart core plan.now done.report done.core) }
{
    if is_crowd(plan.ops.as_slice()) {
        return play_crowd(rt, alloc, core, plan, gate);
    }
    let Some(crash) = &plan.crash else {
        unreachable!()
    };
    let CrashedRound { report, core } = crash_round(alloc, core, plan, crash)?;
    Ok(Restarted { report, core })
}
