//! A recovery that may be stopped after each action, and one that is made to its end.

ghost use Rattle.std.specs.Prelude.{suc, IfOk, MatchResult};
ghost use Rattle.version_lock.specs.Versions.{IsGeneration};
ghost use Rattle.image_layer_rules.specs.Sound.{IsSoundByAll};
ghost use Rattle.image_recovery.specs.Plans.{columns};
ghost use Rattle.image_recovery.specs.Recovered.{IsOpenFault, IsRecoveredTo};
ghost use Rattle.image_recovery.specs.Recoveries.{IsBegun};

use crate::making::Making;
use crate::moves::Move;
use crate::planning::plan;
use crate::recovering::{OpenFault, finish, opened, refusal};
use pm_words::{Image, Machine, Memory, NoMemory, Steps, Turn};
use std::alloc::Global;
use std::sync::ledger::Ledger;

/// A recovery by its plan, with which one action at a time is made.
#[derive(Drop)]
pub struct Recovery {
    moves: Vec<Move>,
    /// How many of the moves have begun.
    begun: usize,
    /// The move that is made.
    making: Option<Making>,
}

/// A recovery that has begun, and the memory on which it is made.
pub struct Begun {
    pub recovery: Recovery,
    pub memory: Memory,
}

/// The recovery of an image that is sound by all rules, and the memory with it. No action is made; only the marks of
/// what the search layer reaches are set.
pub fn begin_sound(alloc: Global, image: Image) -> Result<Begun, NoMemory>
    requires sound { IsSoundByAll image.layout image.words }
    requires next { IsGeneration (suc (columns image).generation) }
    ensures { IfOk result (IsBegun image) }
{
    let moves = plan(alloc, &image)?;
    let memory = opened(alloc, image)?;
    let recovery = Recovery::new(moves);
    Ok(Begun { recovery, memory })
}

/// Begins to recover an image, without an action; it refuses what `recover` does.
pub fn begin(alloc: Global, image: Image) -> Result<Begun, OpenFault>
    ensures { MatchResult result
        (λ begun. IsSoundByAll image.layout image.words × IsBegun image begun) (IsOpenFault image) }
{
    if let Some(fault) = refusal(&image) {
        return Err(fault);
    }
    match begin_sound(alloc, image) {
        Ok(begun) => Ok(begun),
        Err(_) => Err(OpenFault::NoMemory),
    }
}

impl Recovery {
    ghost use Rattle.std.specs.Prelude.{◌≡◌, ◌+◌, ◌↔◌, List, [], map, None, IsTrue, false, true, if◌then◌else◌};
    ghost use Rattle.std.specs.Prelude.{MatchBool, MatchOption};
    ghost use Rattle.pm_words.specs.Images.{Row};
    ghost use Rattle.image_recovery.specs.Plans.{move_of};
    ghost use Rattle.image_recovery.specs.Recovered.{IsRecoverable, IsUnderWay};
    ghost use Rattle.image_recovery.specs.Recoveries.{HasEnded, IsRecovering, MayStep, IsMakingOne, moves_left};
    ghost use Rattle.image_recovery.specs.Recoveries.{IsTaken};
    ghost use Rattle.image_recovery.specs.Recoveries.{IsNearer, MakesOne};

    /// The recovery that makes these moves.
    pub fn new(moves: Vec<Move>) -> Recovery
        ensures recovering { (image row : Row) → IsUnderWay image row (map move_of moves.items) →
            IsRecovering image result row }
        ensures none { (result.begun ≡ 0) × (result.making ≡ None) }
    {
        Recovery {
            moves,
            begun: 0,
            making: None,
        }
    }

    /// The move that is made, or else the next one; None where all are made.
    fn current(&mut self, memory: &Memory) -> Option<Making>
        requires { MayStep self.old memory.now }
        ensures taken { MatchOption result (HasEnded self.old × (self.new ≡ self.old))
            (IsTaken self.old memory.now self.new) }
        ensures at { (image : Row) → IsRecoverable image → IsRecovering image self.old memory.now →
            MatchOption result (IsRecoveredTo image memory.now × IsRecovering image self.new memory.now)
            (IsMakingOne image memory.now (moves_left self.new)) }
    {
        if let Some(making) = self.making {
            return Some(making);
        }
        if self.moves.len() <= self.begun {
            return None;
        }
        let next = self.moves[self.begun];
        self.begun += 1;
        Some(Making::of(memory, next))
    }

    /// Whether all moves are made.
    pub fn is_done(&self) -> bool
        ensures { IsTrue result ↔ HasEnded self.now }
    {
        self.making.is_none() && self.moves.len() <= self.begun
    }

    /// Makes one action, with nobody else at the memory. False where all are made, and the image is recovered; then
    /// nothing is done.
    pub fn step<L: Ledger>(&mut self, memory: &mut Memory, steps: &mut Steps<L>) -> bool
        requires { MayStep self.old memory.old }
        ensures goes { (image : Row) → IsRecoverable image → IsRecovering image self.old memory.old →
            IsRecovering image self.new memory.new }
        ensures ends { (image : Row) → IsRecoverable image → IsRecovering image self.old memory.old →
            result ≡ false → IsRecoveredTo image memory.new }
        ensures acts { MatchBool result (MakesOne self.old memory.old self.new memory.new)
            (HasEnded self.old × (self.new ≡ self.old) × (memory.new ≡ memory.old)) }
        ensures nearer { result ≡ true → IsNearer self.old self.new }
        ensures counts { steps.new ≡ (if result then steps.old + 1 else steps.old) }
    {
        let Some(making) = self.current(memory) else {
            return false;
        };
        let got = memory.act(making.action(), steps);
        self.making = match making.resume(got) {
            Turn::Go(next) => Some(next),
            Turn::Done(()) => None,
        };
        true
    }

    /// Makes all that is left, with nobody else at the memory.
    pub fn run<L: Ledger>(&mut self, memory: &mut Memory, steps: &mut Steps<L>)
        requires { MayStep self.old memory.old }
        ensures goes { (image : Row) → IsRecoverable image → IsRecovering image self.old memory.old →
            IsRecovering image self.new memory.new }
        ensures ended { HasEnded self.new }
    {
        'moves: while let Some(making) = self.current(memory) {
            self.making = None;
            finish(memory, making, steps);
        }
    }
}

/// Recovers an image: the memory then has the same list, the same map and the same weight, in the next generation, with
/// an empty log, a search layer that is exactly the list's, and no live slot out of its node's range; all of it is
/// durable, and its volatile words are 0 but for the marks of what the layer reaches. An image that isn't sound is
/// refused, by the first of all rules that it breaks, and so is one of the last generation.
pub fn recover<L: Ledger>(
    alloc: Global,
    image: Image,
    steps: &mut Steps<L>,
) -> Result<Memory, OpenFault>
    ensures { MatchResult result
        (λ memory. IsSoundByAll image.layout image.words × IsRecoveredTo image memory) (IsOpenFault image) }
{
    let Begun {
        mut recovery,
        mut memory,
    } = begin(alloc, image)?;
    recovery.run(&mut memory, steps);
    Ok(memory)
}
