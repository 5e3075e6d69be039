//! Running a round.

ghost use Rattle.std.specs.Prelude.{◌≡◌, ◌<◌, ◌≤◌, ◌^◌, [], All, IfOk};
ghost use Rattle.pac_index.specs.index_core.specs.Lone.{IsQuiet};
ghost use Rattle.pac_index.specs.index_core.specs.Indexes.{parties_of};
ghost use Rattle.pac_index.specs.Callers.{AreAtRest, AreNew, HasCallers, IsCallerOf};
ghost use Rattle.thread_rounds.specs.Gathered.{ArePlayed, HasEndedByCrash, HasMet, IsGathered};
ghost use Rattle.thread_rounds.specs.Played.{IsNew, IsPlayedBy};
ghost use Rattle.thread_rounds.specs.RunRounds.{IsRun};

use crate::counting::placed;
use crate::worker::{Played, plays};
use cat_history::{Items, NoMemory, Record, Records, RoundPlan};
use pac_index::index_core::Core;
use pac_index::{Caller, Crashed, Gate, Shared};
use pm_words::Image;
use std::alloc::Global;
use std::sync::Wait;
use std::thread::{Threads, map_vec};

/// A round that was run: its records by caller, how many writes it placed, and how it ended.
#[derive(Drop)]
pub struct Round {
    pub records: Records,
    pub writes: u64,
    pub finish: Finish,
}

/// How a round ends.
#[derive(Drop)]
pub enum Finish {
    /// The callers were joined, in this core.
    Joined(Core),
    /// A crash left this image.
    Crashed(Image),
}

/// Runs a round: each caller makes its calls in a thread of its own, in the order of the plan, and the updater its
/// turns. All are joined at the end; or, where the plan has a crash, each comes as far as its budget of steps lets it,
/// and when all have stopped, power fails. The marks of its records are open then, as long as the map that is found in
/// the image was not asked for them.
pub fn run_round<R: Threads + Wait + Sync, G: Gate>(
    rt: &R,
    alloc: Global,
    core: Core,
    plan: &RoundPlan,
    gate: &G,
) -> Result<Round, NoMemory>
    requires quiet { IsQuiet core }
    requires start { core.history ≡ [] }
    requires callers { All (λ a. a.caller < core.layout.callers) plan.now.ops }
    requires limit { plan.now.limit ≤ 2 ^ 62 }
    ensures run { IfOk result (IsRun core plan.now) }
{
    let (shared, callers) = Shared::new(alloc, core)?;
    let played = all_play(rt, alloc, &shared, callers, plan, gate)?;
    let (callers, records) = gathered(alloc, played)?;
    match &plan.crash {
        None => joined(alloc, shared, callers, records),
        Some(crash) => crashed(alloc, shared, callers, records, crash.seed),
    }
}

/// The round of callers that are joined now.
fn joined(
    alloc: Global,
    shared: Shared,
    callers: Vec<Caller>,
    records: Vec<Record>,
) -> Result<Round, NoMemory>
    requires callers { HasCallers shared (parties_of shared.about.layout) callers.items }
    requires rests { AreAtRest callers.items }
    ensures { IfOk result (HasMet shared callers.items records.items) }
{
    let met = shared.close(alloc, callers)?;
    let writes = met.history().len() as u64;
    Ok(Round {
        records: Items::of(records),
        writes,
        finish: Finish::Joined(met),
    })
}

/// The round of callers for which power fails now.
fn crashed(
    alloc: Global,
    shared: Shared,
    callers: Vec<Caller>,
    records: Vec<Record>,
    seed: u64,
) -> Result<Round, NoMemory>
    requires callers { HasCallers shared (parties_of shared.about.layout) callers.items }
    ensures { IfOk result (HasEndedByCrash shared callers.items records.items seed) }
{
    let Crashed { image, cuts: _ } = shared.crash(alloc, callers, seed)?;
    let writes = placed(records.as_slice());
    Ok(Round {
        records: Items::of(records),
        writes,
        finish: Finish::Crashed(image),
    })
}

/// All callers at once.
fn all_play<R: Threads + Wait + Sync, G: Gate>(
    rt: &R,
    alloc: Global,
    shared: &Shared,
    callers: Vec<Caller>,
    plan: &RoundPlan,
    gate: &G,
) -> Result<Vec<Result<Played, NoMemory>>, NoMemory>
    requires callers { HasCallers shared.now (parties_of shared.now.about.layout) callers.items }
    requires new { AreNew callers.items }
    requires asked { All (λ a. a.caller < shared.now.about.layout.callers) plan.now.ops }
    requires limit { plan.now.limit ≤ 2 ^ 62 }
    ensures { IfOk result (λ played. ArePlayed shared.now plan.now callers.items played.items) }
{
    let played = map_vec(
        rt,
        callers,
        &|caller: Caller| -> Result<Played, NoMemory>
            requires caller { IsCallerOf shared.now caller }
            requires new { IsNew caller }
            requires asked { All (λ a. a.caller < shared.now.about.layout.callers) plan.now.ops }
            requires limit { plan.now.limit ≤ 2 ^ 62 }
            ensures { IfOk result (IsPlayedBy shared.entry.now plan.entry.now caller) }
        { plays(rt, alloc, shared, caller, plan, gate) },
    )?;
    Ok(played)
}

/// The callers and their records, by caller, unless one of them ran out of memory.
fn gathered(
    alloc: Global,
    played: Vec<Result<Played, NoMemory>>,
) -> Result<(Vec<Caller>, Vec<Record>), NoMemory>
    ensures { IfOk result (λ all. IsGathered played.items all.0.items all.1.items) }
{
    let mut left = played;
    left.reverse();
    let mut callers = Vec::new(alloc);
    let mut records = Vec::new(alloc);
    while let Some(played) = left.pop() {
        let Played {
            caller,
            records: mut told,
        } = played?;
        records.append(&mut told)?;
        callers.push(caller)?;
    }
    Ok((callers, records))
}
