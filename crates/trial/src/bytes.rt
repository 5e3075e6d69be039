//! How long the bytes of an image take.

use anyhow::{Result, anyhow};
use pm_words::{Image, Layout};
use std::alloc::AllocGlobal;
use std::rt::Clock;
use std::time::{Duration, Instant};

/// How often each direction is timed.
const RUNS: u64 = 9;

/// How long it takes to read these bytes as an image.
fn read_once<R: Clock + AllocGlobal>(rt: &R, bytes: &[u8]) -> Result<Duration> {
    let start = Instant::now(rt)?;
    Image::read(rt.alloc(), bytes).map_err(|fault| anyhow!("{fault:?}"))?;
    Ok(start.elapsed(rt)?)
}

/// How long it takes to write an image as bytes, and to read them again.
fn both<R: Clock + AllocGlobal>(rt: &R, image: &Image) -> Result<(Duration, Duration)> {
    let start = Instant::now(rt)?;
    let bytes = image.write(rt.alloc())?;
    let writing = start.elapsed(rt)?;
    Ok((writing, read_once(rt, &bytes)?))
}

/// Writes the fresh image of the default layout as bytes and reads it again, and prints the least time of each.
pub fn time_bytes<R: Print + Clock + AllocGlobal>(rt: &R) -> Result<()> {
    let layout = Layout::new(1024, 64, 4).map_err(|fault| anyhow!("{fault:?}"))?;
    let image = Image::fresh(rt.alloc(), layout)?;
    let (mut writing, mut reading) = (Duration::MAX, Duration::MAX);
    for _ in 0..RUNS {
        let (written, read) = both(rt, &image)?;
        writing = writing.min(written);
        reading = reading.min(read);
    }
    let (writing, reading) = (writing.as_micros(), reading.as_micros());
    println!(rt;
        "{} bytes: write {writing} us, read {reading} us",
        8 * layout.image_words()
    )?;
    Ok(())
}
