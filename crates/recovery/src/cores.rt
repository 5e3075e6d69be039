//! Opening cores: that of an empty catalogue, and that of a core's own image.

ghost use Rattle.std.specs.Prelude.{◌≡◌, ◌/◌, ◌≤◌, [], ◌∷◌, IfOk, suc};
ghost use Rattle.std.specs.FinMap.{empty};
ghost use Rattle.pm_words.specs.Layouts.{IsLayout};
ghost use Rattle.version_lock.specs.Versions.{IsGeneration};
ghost use Rattle.index_law.specs.Anchors.{anchors_in};
ghost use Rattle.index_core.specs.Indexes.{map_of_index, world};
ghost use Rattle.index_core.specs.Lone.{IsQuiet};
ghost use Rattle.index_core.specs.Weights.{weight_of};
ghost use Rattle.recovery.specs.Opened.{IsOpenedFrom};
ghost use Rattle.recovery.specs.Cores.{IsReopened, fresh_image};

use crate::opening::recover_sound;
use index_core::Core;
use pm_words::{Image, Layout, NoMemory};
use std::alloc::Global;

/// The core of a catalogue without names: a fresh image, opened in the second generation. Its one member weighs half as
/// many as a node has slots.
pub fn open_fresh(alloc: Global, layout: Layout) -> Result<Core, NoMemory>
    requires { IsLayout layout }
    ensures opened { IfOk result (IsOpenedFrom (fresh_image layout)) }
    ensures empty { IfOk result (λ core. map_of_index core ≡ empty) }
    ensures anchors { IfOk result (λ core. anchors_in (world core) ≡ [] ∷ []) }
    ensures weighs { IfOk result (λ core. weight_of core ≤ layout.slots / 2) }
    ensures generation { IfOk result (λ core. core.generation ≡ 2) }
{
    let image = Image::fresh(alloc, layout)?;
    recover_sound(alloc, image)
}

/// Opens the image of a core again, in the next generation: each version word begins anew, and no log line waits.
pub fn reopen(alloc: Global, core: Core) -> Result<Core, NoMemory>
    requires quiet { IsQuiet core }
    requires next { IsGeneration (suc core.generation) }
    ensures { IfOk result (IsReopened core) }
{
    let image = core.image(alloc)?;
    recover_sound(alloc, image)
}
