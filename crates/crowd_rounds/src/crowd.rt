//! A round of several callers, and the core that an image opens as behind it.

ghost use Rattle.std.specs.Prelude.{◌≡◌, ◌<◌, ◌≤◌, ◌^◌, All, IfOk, length, suc};
ghost use Rattle.core_crashes.specs.core_rounds.specs.LoneCalls.{AreReportCalls};
ghost use Rattle.thread_rounds.specs.index_core.specs.Lone.{IsQuiet};
ghost use Rattle.image_rules.specs.Rules.{header_generation};
ghost use Rattle.image_layer_rules.specs.Sound.{IsSoundByAll};
ghost use Rattle.version_lock.specs.Versions.{IsGeneration};
ghost use Rattle.crowd_rounds.specs.Crowds.{IsPlayedAs, IsReportedBehind, IsReportedCrash};

use cat_history::{NoMemory, Records, RoundPlan, settle};
use cat_text::RoundReport;
use core_crashes::recovery::{recover_sound, reopen};
use pm_words::Image;
use std::alloc::Global;
use std::sync::Wait;
use std::thread::Threads;
use thread_rounds::index_core::Core;
use thread_rounds::pac_index::Gate;
use thread_rounds::{Finish, Round, run_round};

/// A round that was played, behind which the index was opened again: what is reported of it, and the core that the
/// image opens as.
#[derive(Drop)]
pub(crate) struct Restarted {
    pub(crate) report: RoundReport,
    pub(crate) core: Core,
}

/// Plays a round of several callers on the map of a core. Where they are joined, the image is opened again in which
/// they meet: so each version word begins anew, and the next round finds no worn node. Where a crash ends the round,
/// the image is opened that it leaves, and the map that is found there says what became of each write that was cut off.
pub(crate) fn play_crowd<R: Threads + Wait + Sync, G: Gate>(
    rt: &R,
    alloc: Global,
    core: Core,
    plan: &RoundPlan,
    gate: &G,
) -> Result<Restarted, NoMemory>
    requires quiet { IsQuiet core }
    requires next { IsGeneration (suc core.generation) }
    requires callers { All (λ a. a.caller < core.layout.callers) plan.now.ops }
    requires told { AreReportCalls plan.now.ops }
    requires limit { plan.now.limit ≤ 2 ^ 62 }
    ensures { IfOk result (λ done. IsPlayedAs plan.now.crash core plan.now done.report done.core) }
{
    let mut core = core;
    core.new_round()?;
    let Round {
        records,
        writes,
        finish,
    } = run_round(rt, alloc, core, plan, gate)?;
    match finish {
        Finish::Joined(met) => reopened(alloc, records, writes, met),
        Finish::Crashed(image) => recovered(alloc, records, writes, image),
    }
}

/// The report of a round whose callers met in this core, and the core that its image opens as.
fn reopened(alloc: Global, records: Records, writes: u64, met: Core) -> Result<Restarted, NoMemory>
    requires quiet { IsQuiet met }
    requires next { IsGeneration (suc met.generation) }
    ensures { IfOk result (λ done. IsReportedBehind met records writes done.report done.core) }
{
    let core = reopen(alloc, met)?;
    let names = names_in(&core);
    Ok(Restarted {
        report: RoundReport {
            records,
            crashed: false,
            writes,
            names,
        },
        core,
    })
}

/// The report of a round that a crash ended, which left this image, and the core that it opens as.
fn recovered(
    alloc: Global,
    records: Records,
    writes: u64,
    image: Image,
) -> Result<Restarted, NoMemory>
    requires sound { IsSoundByAll image.layout image.words }
    requires next { IsGeneration (suc (header_generation image.layout image.words)) }
    ensures { IfOk result (λ done. IsReportedCrash image records writes done.report done.core) }
{
    let core = recover_sound(alloc, image)?;
    let mut records = records;
    settle(&mut records, core.base());
    let names = names_in(&core);
    Ok(Restarted {
        report: RoundReport {
            records,
            crashed: true,
            writes,
            names,
        },
        core,
    })
}

/// How many names a core has that was opened.
fn names_in(core: &Core) -> u64
    ensures { result ≡ length core.now.base }
{
    core.base().as_slice().len() as u64
}
