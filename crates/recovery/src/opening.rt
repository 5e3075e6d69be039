//! An image opened as an index.

ghost use Rattle.std.specs.Prelude.{◌≡◌, ◌<◌, suc, IfOk, MatchResult};
ghost use Rattle.version_lock.specs.Versions.{IsGeneration};
ghost use Rattle.image_rules.specs.Rules.{header_generation};
ghost use Rattle.image_layer_rules.specs.Sound.{IsSoundByAll};
ghost use Rattle.image_recovery.specs.declared.recovering.OpenFault.TheVariants.{NoMemory as OutOfMemory};
ghost use Rattle.image_recovery.specs.Recovered.{IsOpenFault};
ghost use Rattle.recovery.specs.Opened.{IsOpenedFrom};

use crate::stopping::Recovery;
use image_recovery::OpenFault;
use index_core::Core;
use pm_words::{Image, NoMemory, Steps};
use std::alloc::Global;
use std::marker::Brand;
use std::sync::ledger::{Blank, Ledger};

/// Recovers an image and opens it as an index.
///
/// The index has the image's list, map and weight, in the next generation, with an empty log and a search layer that is
/// exactly the list's. All of it is durable. Its base is the image's map, and its history is empty; no call is in
/// flight, and no node was locked yet. An image that isn't sound is refused by the first of all rules that it breaks,
/// and so is one of the last generation.
///
/// It takes time in proportion to the words of the image.
pub fn recover(alloc: Global, image: Image) -> Result<Core, OpenFault>
    ensures { MatchResult result (IsOpenedFrom image) (IsOpenFault image) }
{
    recover_on::<Brand>(alloc, image, Blank::new(1))
}

/// The same, with a ledger for the steps of the recovery, which nobody reads.
fn recover_on<L: Ledger>(alloc: Global, image: Image, blank: Blank) -> Result<Core, OpenFault>
    requires name { blank.name ≡ L.name }
    requires parts { (blank.parts ≡ L.parts) × (0 < L.parts) }
    ensures { MatchResult result (IsOpenedFrom image) (IsOpenFault image) }
{
    let (book, share) = blank.open::<L>();
    let mut steps = Steps::new(book, share);
    let mut recovery = Recovery::start(alloc, image)?;
    recovery.run(&mut steps);
    Ok(recovery.finish())
}

/// The same of an image that is sound, and of which there is a next generation: only memory can be wanting.
pub fn recover_sound(alloc: Global, image: Image) -> Result<Core, NoMemory>
    requires sound { IsSoundByAll image.layout image.words }
    requires next { IsGeneration (suc (header_generation image.layout image.words)) }
    ensures { IfOk result (IsOpenedFrom image) }
{
    match recover(alloc, image) {
        Ok(core) => Ok(core),
        Err(fault) => Err(no_memory(fault)),
    }
}

/// Why such an image isn't opened.
fn no_memory(fault: OpenFault) -> NoMemory
    requires { fault ≡ OutOfMemory }
{
    match fault {
        OpenFault::NoMemory => NoMemory,
        OpenFault::Damaged { .. } | OpenFault::Generations => unreachable!(),
    }
}
