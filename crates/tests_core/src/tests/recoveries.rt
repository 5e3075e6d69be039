//! A recovery that is broken off at the end of the generations; and which words a seed evicts.

ghost use Rattle.std.specs.Prelude.{◌≡◌, ◌<◌};
ghost use Rattle.recovery.specs.Stops.{MayGoOn};

use super::images::{catalogue, set_word};
use pm_words::offsets::header;
use pm_words::{Image, Steps};
use recovery::index_core::is_chosen;
use recovery::{OpenFault, Recovery};
use std::alloc::Global;
use std::marker::Brand;
use std::sync::ledger::{Blank, Ledger};

/// So many actions of a recovery. Where it is done, it makes none.
fn go<L: Ledger>(recovery: &mut Recovery, actions: u64, steps: &mut Steps<L>)
    requires { MayGoOn recovery.old }
{
    for _ in 0..actions {
        recovery.step(steps);
    }
}

/// What a crash leaves of a recovery after so many actions, with its generation durable.
fn broken(alloc: Global, image: Image, actions: u64) -> Result<Image, OpenFault> {
    broken_on::<Brand>(alloc, image, actions, Blank::new(1))
}

fn broken_on<L: Ledger>(
    alloc: Global,
    image: Image,
    actions: u64,
    blank: Blank,
) -> Result<Image, OpenFault>
    requires name { blank.name ≡ L.name }
    requires parts { (blank.parts ≡ L.parts) × (0 < L.parts) }
{
    let (book, share) = blank.open::<L>();
    let mut steps = Steps::new(book, share);
    let mut recovery = Recovery::start(alloc, image)?;
    go(&mut recovery, actions, &mut steps);
    if header::GENERATION < recovery.layout().image_words() {
        recovery.evict(header::GENERATION);
    }
    Ok(recovery.crash())
}

/// An image of the last generation but one.
fn late(alloc: Global) -> Option<Image> {
    let mut bytes = catalogue(alloc)?;
    set_word(&mut bytes, header::GENERATION, (1 << 24) - 2);
    Image::read(alloc, bytes.as_slice()).ok()
}

/// What recoveries are refused for: one of that image, and one of what is left where that is broken off after so many
/// actions.
fn refused(alloc: Global, actions: u64) -> Option<[Option<OpenFault>; 2]> {
    match broken(alloc, late(alloc)?, actions) {
        Ok(left) => Some([None, broken(alloc, left, 0).err()]),
        Err(fault) => Some([Some(fault), None]),
    }
}

/// A recovery that made no action has used up no generation; its first store uses one up, and then none is left.
#[test]
fn generations_end(rt: HostRuntime) {
    assert!(rt; refused(rt.alloc(), 0) == Some([None, None]));
    assert!(rt; refused(rt.alloc(), 20) == Some([None, Some(OpenFault::Generations)]));
}

/// Of each 64 words seed 2 evicts one: words 1, 64 and 191 of the first ones, and word 254.
#[test]
fn a_seed_evicts_its_words(rt: HostRuntime) {
    for word in 0..256 {
        assert!(rt; is_chosen(2, word) == matches!(word, 1 | 64 | 191 | 254));
    }
    for (seed, chosen) in [(0, false), (1, true)] {
        assert!(rt; is_chosen(seed, 77) == chosen);
    }
}
