//! A core that no thread shares: its names, and the calls of one caller.

ghost use Rattle.std.specs.Prelude.{◌≡◌, ◌<◌, [], IfOk, OnOk};
ghost use Rattle.pm_words.specs.Layouts.{IsLayout};
ghost use Rattle.index_core.specs.Lone.{IsQuiet};

use crate::calls::{Mix, call_of, first_put, names};
use index_core::Core;
use pm_words::{Layout, NoMemory, Steps};
use recovery::open_fresh;
use std::alloc::Global;
use std::marker::Brand;
use std::sync::ledger::{Blank, Ledger};

/// An index that has each name of the mix, in a round of its own. Its search layer leads to each node.
pub fn filled(alloc: Global, layout: Layout, mix: Mix) -> Result<Core, NoMemory>
    requires { IsLayout layout }
    ensures { IfOk result (λ core. IsQuiet core × (core.history ≡ []) × (core.layout ≡ layout)) }
{
    let mut core = open_fresh(alloc, layout)?;
    fill::<Brand>(&mut core, mix, Blank::new(1))?;
    core.new_round()?;
    Ok(core)
}

/// Puts each name, and makes a turn of the updater. Nobody reads the ledger of their steps.
fn fill<L: Ledger>(core: &mut Core, mix: Mix, blank: Blank) -> Result<(), NoMemory>
    requires quiet { IsQuiet core.old }
    requires caller { 0 < core.old.layout.callers }
    requires name { blank.name ≡ L.name }
    requires parts { (blank.parts ≡ L.parts) × (0 < L.parts) }
    ensures { OnOk result (IsQuiet core.new × (core.new.layout ≡ core.old.layout)) }
{
    let (book, share) = blank.open::<L>();
    let mut steps = Steps::new(book, share);
    for number in 0..names(mix) {
        let Some(put) = first_put(mix, number) else {
            break;
        };
        core.reserve(1)?;
        core.run_alone(0, put, &mut steps);
    }
    core.turn_alone(0, 1, 0, &mut steps);
    Ok(())
}

/// The core behind so many calls of its first caller, one after another.
pub fn play_alone(core: Core, calls: u64, mix: Mix) -> Result<Core, NoMemory>
    requires quiet { IsQuiet core }
    requires caller { 0 < core.layout.callers }
{
    let mut core = core;
    play_on_core::<Brand>(&mut core, calls, mix, Blank::new(1))?;
    Ok(core)
}

/// The same, with a ledger for the steps of the calls, which nobody reads.
fn play_on_core<L: Ledger>(
    core: &mut Core,
    calls: u64,
    mix: Mix,
    blank: Blank,
) -> Result<(), NoMemory>
    requires quiet { IsQuiet core.old }
    requires caller { 0 < core.old.layout.callers }
    requires name { blank.name ≡ L.name }
    requires parts { (blank.parts ≡ L.parts) × (0 < L.parts) }
{
    let (book, share) = blank.open::<L>();
    let mut steps = Steps::new(book, share);
    for number in 0..calls {
        let Some(call) = call_of(mix, 0, number) else {
            break;
        };
        core.reserve(1)?;
        core.run_alone(0, call, &mut steps);
    }
    Ok(())
}
