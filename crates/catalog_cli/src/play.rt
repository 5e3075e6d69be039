//! Playing the rounds of a script on an empty catalogue.

ghost use Rattle.std.specs.Prelude.{◌≡◌, ℕ, ◌/◌, List, [], ◌∷◌, IfOk, true};
ghost use Rattle.std.specs.FinMap.{empty};
ghost use Rattle.cat_history.specs.Maps.{Map};
ghost use Rattle.pm_words.specs.Layouts.{IsLayout};
ghost use Rattle.shapes.specs.Anchors.{Anchors};
ghost use Rattle.cat_text.specs.ReportGrammar.{IsReport};
ghost use Rattle.catalog_cli.specs.Reports.{IsAccepted};
ghost use Rattle.crowd_rounds.specs.core_rounds.specs.CrashWork.{CrashRoundsWork};
ghost use Rattle.crowd_rounds.specs.core_rounds.specs.Rounds.{ArePlayed};

use cat_history::{Items, NoMemory, RoundPlan};
use cat_script::Script;
use cat_text::Report;
use crowd_rounds::pac_index::Gate;
use crowd_rounds::play_plans;
use pm_words::Layout;
use std::alloc::Global;
use std::sync::Wait;
use std::thread::Threads;

/// Plays the rounds of a script, one after another, from an empty catalogue of this layout. The script is let go: its
/// lines before the first round, its calls behind the last.
pub(crate) fn play<R: Threads + Wait + Sync, G: Gate>(
    rt: &R,
    alloc: Global,
    layout: &Layout,
    script: Script,
    gate: &G,
) -> Result<Report, NoMemory>
    requires layout { IsLayout layout.now }
    requires accepted { (bytes : List ℕ) × IsAccepted layout.now.callers bytes script }
    ensures played { IfOk result (λ reports. (end : Map) × (shape : Anchors) × ArePlayed layout.now.slots
        layout.now.nodes (layout.now.slots / 2) 0 empty ([] ∷ []) script.rounds reports end shape) }
    ensures works { IfOk result (CrashRoundsWork layout.now.slots layout.now.nodes (layout.now.slots / 2) true 1
        script.rounds) }
    ensures report { IfOk result IsReport }
{
    let rounds = rounds_of(script);
    let played = play_plans(rt, alloc, layout, rounds.as_slice(), gate)?;
    Ok(played.report)
}

/// The rounds of a script alone.
fn rounds_of(script: Script) -> Items<RoundPlan>
    ensures { result ≡ script.rounds }
{
    script.rounds
}
