//! A recovery that may be stopped after each of its actions.

ghost use Rattle.std.specs.Prelude.{◌≡◌, ◌<◌, ◌↔◌, suc, IfOk, IsTrue, MatchResult};
ghost use Rattle.pm_words.specs.Images.{Row};
ghost use Rattle.pm_words.specs.Layouts.{IsLayout};
ghost use Rattle.pm_words.specs.Locations.{image_words};
ghost use Rattle.image_layer_rules.specs.Sound.{IsSoundByAll};
ghost use Rattle.version_lock.specs.Versions.{IsGeneration};
ghost use Rattle.image_recovery.specs.Plans.{columns};
ghost use Rattle.image_recovery.specs.Recovered.{IsOpenFault};
ghost use Rattle.recovery.specs.Opened.{IsOpenedFrom};
ghost use Rattle.recovery.specs.Stops.{IsDone, IsLeftBy, IsRecoveryOf, IsStarted, MayGoOn, StepsOne, crash_of};
ghost use Rattle.recovery.specs.Stops.{evicted_in};

use crate::telling::tell_list;
use cat_history::{Items, Write};
use cat_key::Pair;
use image_pairs::image_pairs;
use image_recovery::{Begun, OpenFault, Recovery as Moves, begin_sound, refusal};
use index_core::{Core, PartyState, idle_states};
use pm_words::{Image, Layout, Memory, NoMemory, Steps};
use std::alloc::Global;
use std::sync::ledger::Ledger;

/// A recovery of an image, one action at a time.
///
/// Between two of its actions words may become durable (`evict`), and power may fail (`crash`). What is left then is as
/// good as the image was. Once all its actions are made, it is opened as an index (`finish`).
#[derive(Drop)]
pub struct Recovery {
    /// The moves of the recovery, and how far they have come.
    moves: Moves,
    memory: Memory,
    /// The pairs of the image's map.
    base: Items<Pair>,
    /// The parties of the index, and its history, so that `finish` needs no memory.
    states: Vec<PartyState>,
    history: Vec<Write>,
}

impl Recovery {
    /// Begins to recover an image, without an action. It refuses what `recover` does.
    pub fn start(alloc: Global, image: Image) -> Result<Recovery, OpenFault>
        ensures { MatchResult result (IsStarted image) (IsOpenFault image) }
    {
        if let Some(fault) = refusal(&image) {
            return Err(fault);
        }
        match Recovery::of_sound(alloc, image) {
            Ok(recovery) => Ok(recovery),
            Err(_) => Err(OpenFault::NoMemory),
        }
    }

    /// The recovery of an image that isn't refused.
    fn of_sound(alloc: Global, image: Image) -> Result<Recovery, NoMemory>
        requires sound { IsSoundByAll image.layout image.words }
        requires next { IsGeneration (suc (columns image).generation) }
        ensures { IfOk result (IsStarted image) }
    {
        let base = image_pairs(alloc, &image)?;
        let states = idle_states(alloc, image.layout().callers() + 1)?;
        let Begun { recovery, memory } = begin_sound(alloc, image)?;
        Ok(Recovery {
            moves: recovery,
            memory,
            base,
            states,
            history: Vec::new(alloc),
        })
    }

    /// Makes one action, which `steps` counts, and tells whether it is done. Where it was done before, it makes none.
    pub fn step<L: Ledger>(&mut self, steps: &mut Steps<L>) -> bool
        requires { MayGoOn self.old }
        ensures goes { (image : Row) → IsRecoveryOf image self.old → IsRecoveryOf image self.new }
        ensures one { StepsOne self.old steps.old self.new steps.new }
        ensures done { IsTrue result ↔ IsDone self.new }
    {
        self.moves.step(&mut self.memory, steps);
        self.moves.is_done()
    }

    /// Makes all actions that are left.
    pub(crate) fn run<L: Ledger>(&mut self, steps: &mut Steps<L>)
        requires { MayGoOn self.old }
        ensures goes { (image : Row) → IsRecoveryOf image self.old → IsRecoveryOf image self.new }
        ensures done { IsDone self.new }
    {
        self.moves.run(&mut self.memory, steps);
    }

    /// The layout of the image.
    pub fn layout(&self) -> Layout
        ensures layout { result ≡ self.now.memory.layout }
        ensures is_layout { IsLayout result }
    {
        self.memory.layout()
    }

    /// Makes a word of the image durable, by its number.
    pub fn evict(&mut self, word: u64)
        requires { word < image_words self.old.memory.layout }
        ensures goes { (image : Row) → IsRecoveryOf image self.old → IsRecoveryOf image self.new }
        ensures evicts { self.new ≡ evicted_in self.old word }
    {
        self.memory.evict(word);
    }

    /// The image that is left where power fails now: what is durable. It is sound by all rules, and has the map, the
    /// list and the weight of the first image, in its generation or the next one.
    pub fn crash(self) -> Image
        ensures image { result ≡ crash_of self }
        ensures left { (image : Row) → IsRecoveryOf image self → IsLeftBy image result }
    {
        self.memory.crash()
    }

    /// Opens the recovered image as an index. It stores the volatile words, which are no part of an image, and so no
    /// actions of the recovery.
    pub fn finish(self) -> Core
        requires going { MayGoOn self }
        requires done { IsDone self }
        ensures { (image : Row) → IsRecoveryOf image self → IsOpenedFrom image result }
    {
        let Recovery {
            mut memory,
            base,
            states,
            history,
            ..
        } = self;
        tell_list(&mut memory);
        Core::opened(memory, base, states, history)
    }
}
