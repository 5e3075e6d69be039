//! A crash of a core, with whatever is in flight, and the core that is opened behind it.

ghost use Rattle.std.specs.Prelude.{◌≡◌, IfOk, suc};
ghost use Rattle.version_lock.specs.Versions.{IsGeneration};
ghost use Rattle.core_rounds.specs.index_core.specs.CrashLaws.{chosen_index};
ghost use Rattle.core_rounds.specs.index_core.specs.Indexes.{IsIndex};
ghost use Rattle.core_crashes.specs.Power.{IsBehindCrash};

use cat_history::NoMemory;
use core_rounds::index_core::{Core, is_chosen};
use core_rounds::recovery::recover_sound;
use std::alloc::Global;

/// Makes those image words durable that the seed chooses.
fn evict_by_seed(core: &mut Core, seed: u64)
    requires index { IsIndex core.old }
    ensures evicted { core.new ≡ chosen_index core.old seed }
    ensures index { IsIndex core.new }
{
    let words = core.layout().image_words();
    for word in 0..words {
        if is_chosen(seed, word) {
            core.evict(word);
        }
    }
}

/// Power fails, once those words are durable that the seed chooses, and the image that is left is opened in the next
/// generation. Its map is the one after all placed writes, and after those of the unplaced ones in flight that the
/// image shows. Memory that runs out is the only refusal.
pub fn fail_power(alloc: Global, core: Core, seed: u64) -> Result<Core, NoMemory>
    requires index { IsIndex core }
    requires next { IsGeneration (suc core.generation) }
    ensures { IfOk result (IsBehindCrash seed core) }
{
    let mut core = core;
    evict_by_seed(&mut core, seed);
    let crashed = core.crash();
    recover_sound(alloc, crashed.image)
}
