//! `thread_trial`: calls of one index by callers on threads, and of a core alone, for times (`bench/threads`).
#![tactic(auto)]

mod alone;
mod calls;
mod crowd;

ghost use Rattle.std.specs.Prelude.{IfOk};
ghost use Rattle.pm_words.specs.Layouts.{IsLayout};

use alone::{filled, play_alone};
use anyhow::{Result, anyhow, bail};
use calls::Mix;
use crossbeam_utils::atomic::AtomicCell;
use crowd::meet;
use pm_words::Layout;
use std::alloc::AllocGlobal;
use std::env;
use std::rt::Clock;
use std::thread::Threads;
use std::time::Instant;

const USAGE: &str = "usage: thread_trial play|time CALLERS|alone CALLS [GETS]";

/// The layout of the index. So no more than four callers make calls.
const NODES: u64 = 1024;

const SLOTS: u64 = 64;

const CALLERS: u64 = 4;

fn main(rt: HostRuntime) -> Result<()> {
    let mut words = Vec::new(rt.alloc());
    for word in env::args(&rt)?.skip(1) {
        words.push(word)?;
    }
    let asked = read_words(words.as_slice())?;
    let played = play(&rt, asked)?;
    tell(&rt, asked.times, played)
}

/// What the words ask for.
#[derive(Clone, Copy)]
struct Asked {
    /// Whether times are told, too.
    times: bool,
    /// How many callers make calls on threads; None where the core is alone.
    callers: Option<u64>,
    calls: u64,
    mix: Mix,
}

fn read_words(words: &[String]) -> Result<Asked> {
    let (verb, callers, calls, mix) = match words {
        [verb, callers, calls] => (verb, callers, calls, Mix::Own),
        [verb, callers, calls, gets] => {
            let gets = number(gets.as_str())?;
            (verb, callers, calls, Mix::Common { gets })
        }
        _ => bail!("{USAGE}"),
    };
    let times = match verb.as_str() {
        "play" => false,
        "time" => true,
        _ => bail!("{USAGE}"),
    };
    let callers = match callers.as_str() {
        "alone" => None,
        callers => Some(number(callers)?),
    };
    let calls = number(calls.as_str())?;
    Ok(Asked {
        times,
        callers,
        calls,
        mix,
    })
}

/// How many writes took place, in how many microseconds, and how many tries were turned back.
#[derive(Clone, Copy)]
struct Played {
    writes: usize,
    micros: u128,
    turned_back: u64,
}

/// Fills an index, and makes the calls.
fn play<R: Clock + AllocGlobal + Threads + Sync>(rt: &R, asked: Asked) -> Result<Played> {
    let Asked { calls, mix, .. } = asked;
    let core = filled(rt.alloc(), layout()?, mix)?;
    let turned_back = AtomicCell::new(0u64);
    let start = Instant::now(rt)?;
    let core = match asked.callers {
        None => play_alone(core, calls, mix)?,
        Some(active) => meet(rt, rt.alloc(), core, active, calls, mix, &turned_back)?,
    };
    let micros = start.elapsed(rt)?.as_micros();
    Ok(Played {
        writes: core.history().len(),
        micros,
        turned_back: turned_back.load(),
    })
}

/// Prints it.
fn tell<R: Print>(rt: &R, times: bool, played: Played) -> Result<()> {
    let Played {
        writes,
        micros,
        turned_back,
    } = played;
    if times {
        println!(rt; "{writes} writes in {micros} us, {turned_back} tries turned back")?;
    } else {
        println!(rt; "{writes} writes")?;
    }
    Ok(())
}

/// A number of the words.
fn number(word: &str) -> Result<u64> {
    word.parse().map_err(|_| anyhow!("{USAGE}"))
}

/// The layout of the index.
fn layout() -> Result<Layout>
    ensures { IfOk result IsLayout }
{
    Layout::new(NODES, SLOTS, CALLERS).map_err(|fault| anyhow!("{fault:?}"))
}
