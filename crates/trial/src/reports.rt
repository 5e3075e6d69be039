//! How long a report takes to be read and printed again.

use anyhow::{Result, anyhow, bail};
use cat_text::print_rounds;
use report_reader::read_report;
use std::alloc::AllocGlobal;
use std::rt::Clock;
use std::time::{Duration, Instant};

/// How often each is timed.
const RUNS: u64 = 5;

/// Reads these bytes as a report and prints it again, which has to come to the same bytes. The time of each.
fn read_and_print<R: Clock + AllocGlobal>(rt: &R, bytes: &[u8]) -> Result<(Duration, Duration)> {
    let start = Instant::now(rt)?;
    let report = read_report(rt.alloc(), bytes).map_err(|fault| anyhow!("{fault:?}"))?;
    let reading = start.elapsed(rt)?;
    let start = Instant::now(rt)?;
    let text = print_rounds(rt.alloc(), &report)?;
    let printing = start.elapsed(rt)?;
    if text.as_slice() != bytes {
        bail!("it prints otherwise");
    }
    Ok((reading, printing))
}

/// Reads a report and prints it again, and tells only that both come out alike.
pub fn read_once<R: Print + Clock + AllocGlobal>(rt: &R, bytes: &[u8]) -> Result<()> {
    read_and_print(rt, bytes)?;
    println!(rt; "{} bytes, read and printed", bytes.len())?;
    Ok(())
}

/// Does so some times, and prints the least time of each.
pub fn time_reading<R: Print + Clock + AllocGlobal>(rt: &R, bytes: &[u8]) -> Result<()> {
    let (mut reading, mut printing) = (Duration::MAX, Duration::MAX);
    for _ in 0..RUNS {
        let (read, printed) = read_and_print(rt, bytes)?;
        reading = reading.min(read);
        printing = printing.min(printed);
    }
    let (reading, printing) = (reading.as_micros(), printing.as_micros());
    println!(rt;
        "{} bytes: read {reading} us, print {printing} us",
        bytes.len()
    )?;
    Ok(())
}
