//! The command that plays a script on the catalogue in a file.

ghost use Rattle.std.specs.Prelude.{◌≡◌, ◌+◌, ◌≤◌, ℕ, List, [], IfErr, IfOk, IfSome, OnOk, Some, length};
ghost use Rattle.cat_script.specs.Scripts.{IsScript};
ghost use Rattle.cat_text.specs.Outside.{ConsumesAtMost};
ghost use Rattle.crowd_rounds.specs.recovery.specs.Opened.{IsOpenedFrom};
ghost use Rattle.catalog_cli.specs.Headline.{IsAfterReading};
ghost use Rattle.catalog_cli.specs.Runs.{IsOpenable, IsPlayRefused, IsRunLeft, IsRunOn, IsRunOnFile, IsRunRefused};

use crate::files::{load_image, save_image};
use crate::reading::{accept, read_source};
use crate::status::{ImageRefusal, Status};
use cat_history::RoundPlan;
use cat_script::{MOST_BYTES, Script};
use cat_text::{Shelf, Source, print_report};
use crowd_rounds::core_rounds::{image_of, restarts};
use crowd_rounds::index_core::Core;
use crowd_rounds::pac_index::Gate;
use crowd_rounds::play_rounds;
use crowd_rounds::recovery::recover;
use pm_words::Image;
use pm_words::offsets::header;
use std::alloc::Global;
use std::sync::Wait;
use std::thread::Threads;
use version_lock::GENERATION_LIMIT;

/// What the rounds of a script leave: the text of their report, and an image.
#[derive(Drop)]
pub(crate) struct Played {
    text: Vec<u8>,
    image: Image,
}

/// Plays the script that the source gives on the catalogue in the file of this name, which is saved whole then. The
/// answer is the text of the report, which is made before the file is saved.
pub(crate) fn run_file<R: Threads + Wait + Sync, S: Source, H: Shelf, G: Gate>(
    rt: &R,
    alloc: Global,
    source: &mut S,
    shelf: &mut H,
    name: &str,
    gate: &G,
) -> Result<Vec<u8>, Status>
    ensures runs { IfOk result (λ text. IsRunOnFile (S.left source.old) (H.files shelf.old) (H.files shelf.new) name.now
        text.items) }
    ensures refused { IfErr result (IsRunRefused (S.left source.old) (H.files shelf.old) name.now (S.faults source.old)
        (S.faults source.new) (H.faults shelf.old) (H.faults shelf.new)) }
    ensures files { IfErr result (IsRunLeft (S.left source.old) (H.files shelf.old) (H.files shelf.new) name.now) }
    ensures read_to_end { OnOk result (IfSome (S.left source.old) (λ _. S.left source.new ≡ Some [])) }
    ensures read_before_refusal { IfErr result (λ status. IsAfterReading status →
        IfSome (S.left source.old) (λ _. S.left source.new ≡ Some [])) }
    ensures takes { ConsumesAtMost (MOST_BYTES + 1) (S.left source.old) (S.left source.new) }
    ensures never_falls { S.faults source.old ≤ S.faults source.new }
    ensures shelf_never_falls { H.faults shelf.old ≤ H.faults shelf.new }
    ensures stays_steady { S.steady source.old → S.steady source.new × (S.faults source.new ≡ S.faults source.old) }
    ensures shelf_stays_steady { H.steady shelf.old → H.steady shelf.new × (H.faults shelf.new ≡ H.faults shelf.old) }
{
    let script = read_source(alloc, source)?;
    let image = load_image(alloc, shelf, name)?;
    let played = play_on_image(rt, alloc, image, &script, gate)?;
    save_image(alloc, shelf, name, &played.image)?;
    Ok(played.text)
}

/// Plays a script on the catalogue in an image.
fn play_on_image<R: Threads + Wait + Sync, G: Gate>(
    rt: &R,
    alloc: Global,
    image: Image,
    script: &Script,
    gate: &G,
) -> Result<Played, Status>
    requires { (bytes : List ℕ) × IsScript bytes script.now }
    ensures played { IfOk result (λ played. (bytes : List ℕ) → IsScript bytes script.now →
        IsRunOn image bytes played.text.items played.image) }
    ensures refused { IfErr result (λ status. (bytes : List ℕ) → IsScript bytes script.now →
        IsPlayRefused image bytes script.now.rounds status) }
{
    let layout = image.layout();
    let plans = script.rounds.as_slice();
    let core = open_for(alloc, image, plans)?;
    accept(script, layout)?;
    let played = play_rounds(rt, alloc, core, plans, gate)?;
    let text = print_report(alloc, &played.report)?;
    let image = image_of(alloc, &played.core)?;
    Ok(Played { text, image })
}

/// Opens the catalogue in an image on which these rounds are to be played. It has to be sound, and to have a generation
/// left for this opening, for one behind each round that a crash ends, and for one behind each other round of several
/// callers.
fn open_for(alloc: Global, image: Image, plans: &[RoundPlan]) -> Result<Core, Status>
    requires { length plans.now ≤ 1001 }
    ensures opened { IfOk result (IsOpenedFrom image) }
    ensures openable { IfOk result (λ _. IsOpenable image plans.now) }
    ensures refused { IfErr result (λ status. (bytes : List ℕ) → IsPlayRefused image bytes plans.now status) }
{
    let generation = image.word(header::GENERATION);
    let core = recover(alloc, image)?;
    if generation + restarts(plans) >= GENERATION_LIMIT - 1 {
        return Err(Status::Image(ImageRefusal::Generations));
    }
    Ok(core)
}
