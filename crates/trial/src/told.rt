//! Rounds that are told line by line in plain numbers, and what the judge says of each (`tools/check-judge`).
//!
//! A line is a word and up to eight numbers; those that are left out are 0. A name is the number of its only byte. What
//! a call asks is 0 for a put, 1 for a get, 2 for a delete and 3 for a scan. What a thing is made of comes before it:
//!
//! - `base NAME NUMBER`: a name that the map has as the round begins;
//! - `asked CALLER KIND NAME NUMBER`: a call;
//! - `pair NAME NUMBER`: what the next part lists;
//! - `part PLACE LOW HIGH`: a part of the scan whose record comes next, with no name's byte if nothing lies above it;
//! - `told CALLER INDEX KIND NAME NUMBER ANSWER PLACE OLD`: a record, with OLD one more than the old number;
//! - `budget COUNT`: the budget of the next caller;
//! - `join LIMIT WRITES NAMES` or `crash LIMIT WRITES NAMES`: the round's end. Of one that has none nothing is said.

use anyhow::{Result, bail};
use cat_history::{CutMark, Items, Op, Record, Reply, ScanPart};
use cat_key::{Name, Pair};
use std::alloc::{AllocGlobal, Global};
use std::fmt::Write;
use std::mem::replace;
use std::str::from_utf8;
use transcript::{AskedCall, Judged, RoundEnd, judge};

/// A round, as far as it was told: also the pairs of the next part, and the parts of the next record.
#[derive(Drop)]
struct Told {
    base: Vec<Pair>,
    asked: Vec<AskedCall>,
    pairs: Vec<Pair>,
    parts: Vec<ScanPart>,
    records: Vec<Record>,
    budgets: Vec<u64>,
}

/// The name of this byte.
fn name_of(byte: u64) -> Option<Name> {
    Name::read(&[u8::try_from(byte).ok()?]).ok()
}

fn pair_of(name: u64, value: u64) -> Option<Pair> {
    let name = name_of(name)?;
    Some(Pair { name, value })
}

fn op_of(kind: u64, name: u64, number: u64) -> Option<Op> {
    let name = name_of(name)?;
    match kind {
        0 => Some(Op::Put {
            name,
            value: number,
        }),
        1 => Some(Op::Get { name }),
        2 => Some(Op::Del { name }),
        3 => Some(Op::Scan {
            from: name,
            count: number,
        }),
        _ => None,
    }
}

/// The mark of a call that was cut off, by the number of its answer.
fn mark_of(answer: u64, place: u64) -> Option<CutMark> {
    match answer {
        6 => Some(CutMark::At { place }),
        7 => Some(CutMark::Open),
        8 => Some(CutMark::Found),
        9 => Some(CutMark::Lost),
        10 => Some(CutMark::Read),
        _ => None,
    }
}

/// The numbers of a line.
fn numbers_in(text: &str) -> Option<[u64; 8]> {
    let mut words = text.split_whitespace();
    let mut numbers = [0; 8];
    for number in numbers.iter_mut() {
        if let Some(word) = words.next() {
            *number = word.parse().ok()?;
        }
    }
    match words.next() {
        None => Some(numbers),
        Some(_) => None,
    }
}

impl Told {
    fn new(alloc: Global) -> Told {
        Told {
            base: Vec::new(alloc),
            asked: Vec::new(alloc),
            pairs: Vec::new(alloc),
            parts: Vec::new(alloc),
            records: Vec::new(alloc),
            budgets: Vec::new(alloc),
        }
    }

    /// The reply of this number. That of a scan has the parts so far.
    fn reply(&mut self, alloc: Global, answer: u64, place: u64, old: u64) -> Option<Reply> {
        match answer {
            0 => Some(Reply::Old {
                old: old.checked_sub(1),
                place,
            }),
            1 | 2 => Some(Reply::Parts {
                parts: Items::of(replace(&mut self.parts, Vec::new(alloc))),
                cut: answer == 2,
            }),
            3 => Some(Reply::Full),
            4 => Some(Reply::Spent { clock: place }),
            5 => Some(Reply::Unstarted),
            _ => mark_of(answer, place).map(|mark| Reply::Cut { mark }),
        }
    }

    /// Adds a record.
    fn add_record(&mut self, alloc: Global, numbers: [u64; 8]) -> Option<()> {
        let [caller, index, kind, name, number, answer, place, old] = numbers;
        let op = op_of(kind, name, number)?;
        let reply = self.reply(alloc, answer, place, old)?;
        self.records
            .push(Record {
                caller,
                index,
                op,
                reply,
            })
            .ok()
    }

    /// Adds a part, which lists the pairs so far.
    fn add_part(&mut self, alloc: Global, place: u64, low: u64, high: u64) -> Option<()> {
        let low = name_of(low)?;
        let pairs = Items::of(replace(&mut self.pairs, Vec::new(alloc)));
        self.parts
            .push(ScanPart {
                low,
                high: name_of(high),
                place,
                pairs,
            })
            .ok()
    }

    /// Adds what a line says.
    fn add(&mut self, alloc: Global, word: &str, numbers: [u64; 8]) -> Option<()> {
        let [first, second, third, fourth, ..] = numbers;
        match word {
            "base" => self.base.push(pair_of(first, second)?).ok(),
            "pair" => self.pairs.push(pair_of(first, second)?).ok(),
            "asked" => {
                let op = op_of(second, third, fourth)?;
                self.asked.push(AskedCall { caller: first, op }).ok()
            }
            "part" => self.add_part(alloc, first, second, third),
            "told" => self.add_record(alloc, numbers),
            "budget" => self.budgets.push(first).ok(),
            _ => None,
        }
    }

    /// What the judge says of a round that ends so.
    fn judged(self, alloc: Global, crashed: bool, numbers: [u64; 8]) -> Result<Vec<Pair>, Judged> {
        let [limit, writes, names, ..] = numbers;
        let end = RoundEnd {
            crashed,
            limit,
            writes,
            names,
            budgets: Items::of(self.budgets),
        };
        let (asked, records) = (Items::of(self.asked), Items::of(self.records));
        judge(alloc, Items::of(self.base), &asked, &records, &end).map(Items::into_vec)
    }

    /// Reads a line, and writes at a round's end what is said of it.
    fn read(&mut self, alloc: Global, said: &mut String, line: &str) -> Option<()> {
        let (word, rest) = line.split_once(' ')?;
        let numbers = numbers_in(rest)?;
        if word == "join" || word == "crash" {
            let told = replace(self, Told::new(alloc));
            let judged = told.judged(alloc, word == "crash", numbers);
            return writeln!(said, "{judged:?}").ok();
        }
        self.add(alloc, word, numbers)
    }
}

/// What is said of each round of a text.
fn said_of(alloc: Global, text: &str) -> Result<String> {
    let mut told = Told::new(alloc);
    let mut said = String::new(alloc);
    match text
        .lines()
        .position(|line| told.read(alloc, &mut said, line).is_none())
    {
        None => Ok(said),
        Some(before) => {
            let line = before.saturating_add(1);
            bail!("line {line}: no line of a round, or no memory for it")
        }
    }
}

/// Reads rounds, and prints of each what the judge says of it.
pub fn judge_told<R: Print + AllocGlobal>(rt: &R, bytes: &[u8]) -> Result<()> {
    let said = said_of(rt.alloc(), from_utf8(bytes)?)?;
    print!(rt; "{said}")?;
    Ok(())
}
