//! How long it takes to find out that an image is sound.

use anyhow::{Result, anyhow};
use image_layer_rules::first_broken_of_all;
use pm_words::Image;
use std::alloc::AllocGlobal;
use std::rt::Clock;
use std::time::{Duration, Instant};

/// How often it is timed.
const RUNS: u64 = 9;

/// How long it takes to look for the first rule that an image breaks, which has to be sound.
fn look_once<R: Clock>(rt: &R, image: &Image) -> Result<Duration> {
    let start = Instant::now(rt)?;
    let broken = first_broken_of_all(image);
    let looking = start.elapsed(rt)?;
    match broken {
        None => Ok(looking),
        Some(broken) => Err(anyhow!("{broken:?}")),
    }
}

/// Looks so at the image that these bytes are some times, and prints the least time.
pub fn time_sound<R: Print + Clock + AllocGlobal>(rt: &R, bytes: &[u8]) -> Result<()> {
    let image = Image::read(rt.alloc(), bytes).map_err(|fault| anyhow!("{fault:?}"))?;
    let mut looking = Duration::MAX;
    for _ in 0..RUNS {
        looking = looking.min(look_once(rt, &image)?);
    }
    let looking = looking.as_micros();
    println!(rt;
        "{} words: sound by all rules in {looking} us",
        image.layout().image_words()
    )?;
    Ok(())
}
