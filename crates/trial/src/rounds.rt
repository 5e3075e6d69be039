//! A long round, made by a plain map, and how long it takes to judge it.

use anyhow::{Result, anyhow};
use cat_history::{Items, Op, Parts, Record, Records, Reply, ScanPart};
use cat_key::{Name, Pair};
use std::alloc::{AllocGlobal, Global};
use std::collections::BTreeMap;
use std::rt::Clock;
use std::time::{Duration, Instant};
use transcript::{Asked, AskedCall, RoundEnd, judge};

const CALLERS: u64 = 16;

const NAMES: u64 = 6000;

/// How many names a scan asks for.
const COUNT: u64 = 5;

/// How often it is timed.
const RUNS: u64 = 5;

/// A round as it goes on, each call of which is answered before the next one begins.
#[derive(Drop)]
struct Playing {
    asked: Vec<AskedCall>,
    told: Vec<Record>,
    names: BTreeMap<Name, u64>,
    place: u64,
    draw: u64,
}

/// The name of this number.
fn name_of(number: u64) -> Result<Name> {
    let mut text = *b"n0000";
    let mut rest = number;
    for digit in text.iter_mut().skip(1) {
        *digit = b'0' + (rest % 10) as u8;
        rest /= 10;
    }
    Name::read(&text).map_err(|fault| anyhow!("{fault:?}"))
}

impl Playing {
    /// A number below this one.
    fn draw(&mut self, below: u64) -> u64 {
        self.draw = self.draw.wrapping_mul(1_103_515_245).wrapping_add(12345) % (1 << 31);
        (self.draw / 65536) % below.max(1)
    }

    /// Draws a call.
    fn ask(&mut self, number: u64) -> Result<Op> {
        let (kind, name) = (self.draw(8), self.draw(NAMES));
        let name = name_of(name)?;
        Ok(match kind {
            0..=3 => Op::Put {
                name,
                value: number,
            },
            4 | 5 => Op::Get { name },
            6 => Op::Del { name },
            _ => Op::Scan {
                from: name,
                count: COUNT,
            },
        })
    }

    /// The part of a scan that lists so many names from one on.
    fn parts(&self, alloc: Global, low: Name) -> Result<Parts> {
        let mut pairs = Vec::new(alloc);
        for (name, value) in self.names.range(low..).take(COUNT as usize) {
            pairs.push(Pair {
                name: *name,
                value: *value,
            })?;
        }
        let mut parts = Vec::new(alloc);
        parts.push(ScanPart {
            low,
            high: None,
            place: self.place,
            pairs: Items::of(pairs),
        })?;
        Ok(Items::of(parts))
    }

    /// A write's answer, at the next place.
    fn written(&mut self, old: Option<u64>) -> Reply {
        let place = self.place;
        self.place = place.saturating_add(1);
        Reply::Old { old, place }
    }

    /// Answers a call.
    fn answer(&mut self, alloc: Global, op: &Op) -> Result<Reply> {
        Ok(match op {
            Op::Put { name, value } => {
                let old = self.names.insert(*name, *value)?;
                self.written(old)
            }
            Op::Del { name } => {
                let old = self.names.remove(name);
                self.written(old)
            }
            Op::Get { name } => Reply::Old {
                old: self.names.get(name).copied(),
                place: self.place,
            },
            Op::Scan { from, .. } => Reply::Parts {
                parts: self.parts(alloc, *from)?,
                cut: false,
            },
        })
    }

    /// One call more.
    fn play(&mut self, alloc: Global, number: u64) -> Result<()> {
        let op = self.ask(number)?;
        let reply = self.answer(alloc, &op)?;
        let caller = number % CALLERS;
        self.asked.push(AskedCall { caller, op })?;
        self.told.push(Record {
            caller,
            index: number / CALLERS,
            op,
            reply,
        })?;
        Ok(())
    }
}

/// A round of so many calls.
fn played(alloc: Global, calls: u64) -> Result<Playing> {
    let mut playing = Playing {
        asked: Vec::new(alloc),
        told: Vec::new(alloc),
        names: BTreeMap::new(alloc),
        place: 0,
        draw: 1,
    };
    for number in 0..calls {
        playing.play(alloc, number)?;
    }
    Ok(playing)
}

/// A round that was made, with its end.
#[derive(Drop)]
struct LongRound {
    asked: Asked,
    told: Records,
    end: RoundEnd,
}

fn long_round(alloc: Global, calls: u64) -> Result<LongRound> {
    let Playing {
        asked,
        told,
        names,
        place,
        ..
    } = played(alloc, calls)?;
    Ok(LongRound {
        asked: Items::of(asked),
        told: Items::of(told),
        end: RoundEnd {
            crashed: false,
            limit: 1 << 62,
            writes: place,
            names: names.len() as u64,
            budgets: Items::of(Vec::new(alloc)),
        },
    })
}

/// Judges a round, which has to be legal, and tells how many names it leaves.
fn names_left(alloc: Global, round: &LongRound) -> Result<usize> {
    let base = Items::of(Vec::new(alloc));
    match judge(alloc, base, &round.asked, &round.told, &round.end) {
        Ok(pairs) => Ok(pairs.as_slice().len()),
        Err(fault) => Err(anyhow!("{fault:?}")),
    }
}

/// Judges a round of so many calls, and prints what it leaves.
pub fn judge_once<R: Print + AllocGlobal>(rt: &R, calls: u64) -> Result<()> {
    let round = long_round(rt.alloc(), calls)?;
    let names = names_left(rt.alloc(), &round)?;
    println!(rt;
        "{calls} calls: legal, {} writes, {names} names",
        round.end.writes
    )?;
    Ok(())
}

/// How long it takes to judge it.
fn time_once<R: Clock + AllocGlobal>(rt: &R, round: &LongRound) -> Result<Duration> {
    let start = Instant::now(rt)?;
    names_left(rt.alloc(), round)?;
    Ok(start.elapsed(rt)?)
}

/// Judges it some times, and prints the least time.
pub fn time_judge<R: Print + Clock + AllocGlobal>(rt: &R, calls: u64) -> Result<()> {
    let round = long_round(rt.alloc(), calls)?;
    let mut least = Duration::MAX;
    for _ in 0..RUNS {
        least = least.min(time_once(rt, &round)?);
    }
    let least = least.as_micros();
    println!(rt; "{calls} calls: judged in {least} us")?;
    Ok(())
}
