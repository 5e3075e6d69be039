//! What a recovery begins on, why an image is refused, and how a move is made to its end.

ghost use Rattle.std.specs.Prelude.{◌↔◌, suc, List, IsTrue, IfOk, MatchOption};
ghost use Rattle.pm_words.specs.Images.{Row};
ghost use Rattle.version_lock.specs.Versions.{IsGeneration};
ghost use Rattle.image_layer_rules.specs.Sound.{IsSoundByAll};
ghost use Rattle.image_recovery_law.specs.Moves as law;
ghost use Rattle.image_recovery.specs.Plans.{columns};
ghost use Rattle.image_recovery.specs.Recovered.{IsRecoverable, IsUnderWay};
ghost use Rattle.image_recovery.specs.Recovered.{IsOpenFault, IsOpenedOn};
ghost use Rattle.image_recovery.specs.Recoveries.{IsMakingOne, MayFinish};

use crate::making::Making;
use image_layer_rules::first_broken_of_all;
use pm_words::offsets::header;
use pm_words::{Image, Machine, Memory, NoMemory, Steps, Turn};
use std::alloc::Global;
use std::sync::ledger::Ledger;
use tree_marks::mark_tree;
use version_lock::GENERATION_LIMIT;

/// Why an image isn't opened.
#[derive(Clone, Copy, PartialEq, Eq, Debug)]
pub enum OpenFault {
    /// It isn't sound. This is the first rule that it breaks, and the number of the first word at which it does.
    Damaged { rule: u64, word: u64 },
    /// Its generation is the last that there is.
    Generations,
    /// There was no memory.
    NoMemory,
}

/// Whether there is no generation behind that of the image.
fn is_last(image: &Image) -> bool
    ensures { IsTrue result ↔ ¬ IsGeneration (suc (columns image.now).generation) }
{
    image.word(header::GENERATION) >= GENERATION_LIMIT - 1
}

/// Makes all that is left of a move, with nobody else at the memory.
pub(crate) fn finish<L: Ledger>(memory: &mut Memory, making: Making, steps: &mut Steps<L>)
    requires { MayFinish memory.old making }
    ensures { (image : Row) (rest : List law.Move) → IsRecoverable image →
        IsMakingOne image memory.old rest making → IsUnderWay image memory.new rest }
{
    let mut making = making;
    'turns: loop {
        let got = memory.act(making.action(), steps);
        match making.resume(got) {
            Turn::Go(later) => making = later,
            Turn::Done(()) => return,
        }
    }
}

/// The memory with an image, and with the marks of all leaves and cells that its tree reaches.
pub(crate) fn opened(alloc: Global, image: Image) -> Result<Memory, NoMemory>
    requires { IsSoundByAll image.layout image.words }
    ensures { IfOk result (IsOpenedOn image) }
{
    // That the words are an image's, and then a row's, are clauses of these calls.
    let _of_image = image.layout();
    let mut memory = Memory::of(alloc, image)?;
    mark_tree(&mut memory);
    let _of_row = memory.layout();
    Ok(memory)
}

/// Why an image isn't to be recovered: its first broken rule, or that its generation is the last. None is told where it
/// may be.
pub fn refusal(image: &Image) -> Option<OpenFault>
    ensures { MatchOption result
        (IsSoundByAll image.now.layout image.now.words × IsGeneration (suc (columns image.now).generation))
        (IsOpenFault image.now) }
{
    if let Some(broken) = first_broken_of_all(image) {
        return Some(OpenFault::Damaged {
            rule: broken.rule,
            word: broken.word,
        });
    }
    if is_last(image) {
        return Some(OpenFault::Generations);
    }
    None
}
