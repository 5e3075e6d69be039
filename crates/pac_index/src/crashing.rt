//! A crash of a shared index.

ghost use Rattle.std.specs.Prelude.{◌≡◌, ℕ, map, IfOk};
ghost use Rattle.index_core.specs.Indexes.{parties_of};
ghost use Rattle.pac_index.specs.Callers.{HasCallers};
ghost use Rattle.pac_index.specs.CrashMeetings.{CrashMeeting, IsCrashOf, cut_of};

use crate::caller::{Caller, CutCall};
use crate::meeting::read_words;
use crate::shared::Shared;
use index_core::evict_chosen;
use pm_words::{Image, Memory, NoMemory};
use std::alloc::Global;

/// What a crash leaves of a shared index: the image of its durable words, and for each caller, by number, the call that
/// was cut off.
#[derive(Drop)]
pub struct Crashed {
    pub image: Image,
    pub cuts: Vec<Option<CutCall>>,
}

impl Shared {
    /// Power fails now, when all callers are back, the updater's too, whichever of them was cut off within a call or a
    /// turn. The words that the seed chooses become durable first. On `NoMemory` the index is gone.
    pub fn crash(self, alloc: Global, callers: Vec<Caller>, seed: u64) -> Result<Crashed, NoMemory>
        requires callers { HasCallers self (parties_of self.about.layout) callers.items }
        ensures meeting { IfOk result (CrashMeeting self callers.items) }
        ensures leaves { IfOk result (λ crashed. IsCrashOf self callers.items seed crashed.image) }
    {
        let cuts = all_cuts(alloc, callers.as_slice())?;
        let seat = self.gathered(callers);
        let Shared {
            table,
            about,
            epochs: _,
        } = self;
        let count = table.word_count();
        let closed = table.close_with(seat);
        let words = read_words(alloc, &closed, count);
        closed.free();
        let words = words?;
        let mut memory = Memory::of_words(about.layout, words);
        evict_chosen(&mut memory, seed);
        let image = memory.crash();
        Ok(Crashed { image, cuts })
    }
}

/// What each of the callers tells of a call that was cut off.
fn all_cuts(alloc: Global, callers: &[Caller]) -> Result<Vec<Option<CutCall>>, NoMemory>
    ensures { IfOk result (λ cuts. cuts.items ≡ map cut_of callers.now) }
{
    let mut cuts = Vec::with_capacity(alloc, callers.len())?;
    for number in 0..callers.len() {
        cuts.push_reserved(callers[number].cut);
    }
    Ok(cuts)
}
