//! `trial`: what the scripts need that try how files are saved (`tools/check-saves`) and rounds judged
//! (`tools/check-judge`), and time the bytes of an image (`bench/image-bytes`), the rules of a sound one
//! (`bench/sound-image`), a long report (`bench/reading`) and a long round that is judged (`bench/judging`).
#![tactic(auto)]

mod bytes;
mod reports;
mod rounds;
mod sound;
mod told;

use anyhow::{Result, anyhow, bail};
use bytes::time_bytes;
use cat_text::{Counted, Shelf, read_whole};
use reports::{read_once, time_reading};
use rounds::{judge_once, time_judge};
use sound::time_sound;
use std::alloc::AllocGlobal;
use std::env;
use std::rt::Files;
use told::judge_told;

const USAGE: &str =
    "usage: trial bytes|sound|read|reading|told|save FILE|judge CALLS|judging CALLS|all FILE CALLS";

/// A round of a put and a get, as lines.
const ROUND: &[u8] =
    b"asked 0 0 97 1\nasked 0 1 97\ntold 0 0 0 97 1\ntold 0 1 1 97 0 0 1 2\njoin 9 1 1\n";

/// The most bytes of standard input that are read.
const MOST_BYTES: usize = 1 << 26;

fn main(rt: HostRuntime) -> Result<()> {
    let mut words = Vec::new(rt.alloc());
    for word in env::args(&rt)?.skip(1) {
        words.push(word)?;
    }
    match words.as_slice() {
        [verb] => one_word(rt, verb.as_str()),
        [verb, word] => two_words(rt, verb.as_str(), word.as_str()),
        [all, file, calls] if all.as_str() == "all" => once_each(rt, file.as_str(), calls.as_str()),
        _ => bail!("{USAGE}"),
    }
}

/// What one word says: times, of the image or the report on standard input where it is about one; a report that is read
/// once; or rounds there that are told and judged.
fn one_word(rt: HostRuntime, verb: &str) -> Result<()> {
    match verb {
        "bytes" => time_bytes(&rt),
        "sound" => time_sound(&rt, &input(rt)?),
        "read" => read_once(&rt, &input(rt)?),
        "reading" => time_reading(&rt, &input(rt)?),
        "told" => judge_told(&rt, &input(rt)?),
        _ => bail!("{USAGE}"),
    }
}

/// What a verb says with one word behind it.
fn two_words(rt: HostRuntime, verb: &str, word: &str) -> Result<()> {
    match verb {
        "save" => save(&rt, word, &input(rt)?),
        "judge" => judge_once(&rt, number(word)?),
        "judging" => time_judge(&rt, number(word)?),
        _ => bail!("{USAGE}"),
    }
}

/// The report on standard input saved and read, and a round of so many calls and one that is told judged, once each.
fn once_each(rt: HostRuntime, file: &str, calls: &str) -> Result<()> {
    let bytes = input(rt)?;
    save(&rt, file, &bytes)?;
    read_once(&rt, &bytes)?;
    judge_once(&rt, number(calls)?)?;
    judge_told(&rt, ROUND)
}

/// A number of the words.
fn number(word: &str) -> Result<u64> {
    word.parse().map_err(|_| anyhow!("{USAGE}"))
}

/// What stands on standard input.
fn input(rt: HostRuntime) -> Result<Vec<u8>> {
    let mut source = Counted::new(rt.stdin());
    read_whole(rt.alloc(), &mut source, MOST_BYTES).map_err(|fault| anyhow!("{fault:?}"))
}

/// Saves these bytes as the file of this name.
fn save<R: Files + AllocGlobal + Print>(rt: &R, file: &str, bytes: &[u8]) -> Result<()> {
    let mut shelf = Counted::new(rt);
    shelf
        .save(file, bytes)
        .map_err(|fault| anyhow!("{fault:?}"))?;
    println!(rt; "saved {} bytes", bytes.len())?;
    Ok(())
}
