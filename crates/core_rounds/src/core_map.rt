//! The core of the index as a map of names: each call is a whole call of its caller, with no other in flight.

ghost use Rattle.std.specs.Prelude.{◌≡◌, ℕ, ◌+◌, ◌<◌, ◌≤◌, ◌↔◌, IfOk, OnOk, OnErr, IsErr};
ghost use Rattle.cat_history.specs.Maps.{at};
ghost use Rattle.cat_history.specs.Records.{as_op, change_of};
ghost use Rattle.call_stages.specs.Stages.{pended};
ghost use Rattle.pm_words.specs.Images.{Row};
ghost use Rattle.recovery.specs.node_ops.specs.Asked.{name_asked};
ghost use Rattle.recovery.specs.index_core.specs.CoreCalls.{most_writes, op_of};
ghost use Rattle.recovery.specs.index_core.specs.Indexes.{IsIndex, map_of_index, world};
ghost use Rattle.recovery.specs.index_core.specs.Listings.{ListsRange};
ghost use Rattle.recovery.specs.index_core.specs.Fulls.{HasLowStamps};
ghost use Rattle.recovery.specs.index_core.specs.Lone.{IsQuiet};
ghost use Rattle.recovery.specs.index_core.specs.Weights.{added_if, weight_of};
ghost use Rattle.index_law.specs.Anchors.{anchors_in};
ghost use Rattle.shapes.specs.Anchors.{next_of};
ghost use Rattle.recovery.specs.Opened.{IsOpenedFrom};
ghost use Rattle.core_rounds.specs.CoreMaps.{IsImageOf, IsOfRun, IsUnlimited, StaysQuiet, Waits, anchors_made};
ghost use Rattle.core_rounds.specs.CoreMaps.{calls_left_of, changes_for, puts_for, state_of, writes_left_of};
ghost use Rattle.core_rounds.specs.Updated.{HoldsSame, IsFullIn, WaitBehind, WaitOn};

use crate::updated_map::UpdatedMap;
use call_stages::Once;
use cat_history::{Items, NoMemory};
use cat_key::Name;
use pm_words::{Image, MOST_WRITES, Steps};
use recovery::index_core::{Core, CoreCall, LONE_STAMP, listed_pairs};
use recovery::node_ops::PartWords;
use shapes::{Full, MapPart};
use std::alloc::Global;
use std::marker::{Brand, Model, PhantomData};
use std::sync::ledger::Ledger;

/// So many writes a history may have before it is made shorter.
const MANY_WRITES: u64 = 4096;

/// The layout and the generation of a run of the index, for proofs alone: no call changes them.
pub trait RunOf {
    ghost use Rattle.std.specs.Prelude.{ℕ};
    ghost use Rattle.pm_words.specs.declared.layout.Layout.{Layout};

    ghost layout: { Layout };

    ghost generation: { ℕ };
}

impl RunOf for Brand {
    ghost layout = { record { nodes = 1; slots = 4; callers = 1 } };

    ghost generation = { 2 };
}

/// The index as a map of names. Contracts see it as its index.
#[derive(Drop)]
pub struct CoreMap<L: Ledger, K: RunOf> {
    core: Core,
    /// How many names the map has.
    names: u64,
    steps: Steps<L>,
    run: PhantomData<K>,
}

impl<L: Ledger, K: RunOf> Model for CoreMap<L, K> {
    ghost use Rattle.recovery.specs.index_core.specs.Indexes.{Index};
    ghost use Rattle.core_rounds.specs.CoreMaps.{IsCoreMap, IsOfRun};

    ghost Value = { Index };

    ghost view = { λ m. m.core };

    ghost invariant = { λ m. IsCoreMap m.core m.names × IsOfRun K.layout K.generation m.core };
}

impl<L: Ledger, K: RunOf> CoreMap<L, K> {
    /// The map of a core that an image was opened as, in which its calls are counted.
    pub(crate) fn of_core(core: Core, steps: Steps<L>) -> CoreMap<L, K>
        requires opened { (image : Row) × IsOpenedFrom image core }
        requires run { IsOfRun K.layout K.generation core }
        ensures { result ≡ core }
    {
        let names = core.base().as_slice().len() as u64;
        CoreMap {
            core,
            names,
            steps,
            run: PhantomData,
        }
    }

    /// The core as calls left it.
    pub(crate) fn into_core(self) -> Core
        ensures core { result ≡ self }
        ensures index { IsIndex result }
        ensures quiet { IsQuiet result }
        ensures stamps { HasLowStamps result }
        ensures run { IsOfRun K.layout K.generation result }
    {
        self.core
    }
}

/// The image of a core with no call in flight.
pub fn image_of(alloc: Global, core: &Core) -> Result<Image, NoMemory>
    requires index { IsIndex core.now }
    requires quiet { IsQuiet core.now }
    ensures { IfOk result (IsImageOf core.now) }
{
    core.image(alloc)
}

impl<L: Ledger, K: RunOf> UpdatedMap for CoreMap<L, K> {
    ghost use Rattle.core_rounds.specs.CoreMaps.{HasNoLines, Waits, state_of};

    ghost state = { state_of };

    ghost is_settled = { HasNoLines };

    ghost waits = { Waits };

    fn has_shape(&self) {
        // Its fields have what is known of it.
        let _names = self.names;
    }

    fn get(&mut self, caller: u64, name: &Name) -> Option<u64> {
        let call = CoreCall::Get { name: *name };
        match call_alone(&mut self.core, caller, call, &mut self.steps) {
            Ok(old) => old,
            Err(Full) => unreachable!(),
        }
    }

    fn part(
        &mut self,
        alloc: Global,
        caller: u64,
        low: &Name,
        count: u64,
    ) -> Result<MapPart, NoMemory> {
        let words = list_alone(&mut self.core, caller, low, count, &mut self.steps);
        Ok(MapPart {
            high: words.high,
            pairs: Items::of(listed_pairs(alloc, &words)?),
        })
    }

    fn put(&mut self, caller: u64, name: &Name, value: u64) -> Result<Option<u64>, Full> {
        let call = CoreCall::Put {
            name: *name,
            value,
            limit: MOST_WRITES,
        };
        let old = call_alone(&mut self.core, caller, call, &mut self.steps)?;
        if old.is_none() {
            self.names += 1;
        }
        Ok(old)
    }

    fn del(&mut self, caller: u64, name: &Name) -> Option<u64> {
        let call = CoreCall::Del {
            name: *name,
            limit: MOST_WRITES,
        };
        match call_alone(&mut self.core, caller, call, &mut self.steps) {
            Ok(old) => {
                if old.is_some() {
                    self.names -= 1;
                }
                old
            }
            Err(Full) => unreachable!(),
        }
    }

    fn len(&self) -> u64 {
        self.names
    }

    fn turn(&mut self) {
        shorten(&mut self.core, self.names);
        let updater = self.core.layout().callers();
        self.core
            .turn_alone(updater, LONE_STAMP, LONE_STAMP, &mut self.steps);
    }
}

/// Makes the map the base of the history, where that has many writes, and more than a few for each name. Where there
/// is no memory for it, the history stays. It takes a few steps a write, and keeps a long round's history short.
fn shorten(core: &mut Core, names: u64)
    requires index { IsIndex core.old }
    requires quiet { IsQuiet core.old }
    ensures same { HoldsSame (state_of core.old) (state_of core.new) }
    ensures quiet { StaysQuiet core.old core.new 0 0 }
{
    let writes = core.history().len() as u64;
    if writes < MANY_WRITES || writes / 4 < names {
        return;
    }
    let Ok(()) = core.new_round() else {
        return;
    };
}

/// A whole call on an index that has calls left, with no other in flight. `Full` comes exactly where a put is full in
/// the shape, and then nothing changes; else the answer is the number that the name had.
fn call_alone<L: Ledger>(
    core: &mut Core,
    caller: u64,
    call: CoreCall,
    steps: &mut Steps<L>,
) -> Result<Option<u64>, Full>
    requires index { IsIndex core.old }
    requires quiet { IsQuiet core.old }
    requires stamps { HasLowStamps core.old }
    requires caller { caller < core.old.layout.callers }
    requires unlimited { IsUnlimited call }
    requires calls_left { 0 < calls_left_of core.old }
    requires writes_left { most_writes call ≤ writes_left_of core.old }
    ensures old { IfOk result (λ old. old ≡ at (map_of_index core.old) (name_asked (op_of call))) }
    ensures ok { OnOk result (map_of_index core.new ≡ pended (change_of (op_of call)) (map_of_index core.old)) }
    ensures anchors { OnOk result (anchors_in (world core.new) ≡ anchors_made core.old call) }
    ensures full { IsErr result ↔ IsFullIn (state_of core.old) (as_op (op_of call)) }
    ensures err { OnErr result (HoldsSame (state_of core.old) (state_of core.new)) }
    ensures quiet { StaysQuiet core.old core.new 1 (most_writes call) }
    ensures weighs { IfOk result (λ old. weight_of core.new ≤ weight_of core.old + added_if (op_of call) old) }
    ensures waits { OnOk result (WaitBehind (Waits core.old) (Waits core.new) (changes_for core.old call)
        (most_writes call) (puts_for call)) }
    ensures err_waits { OnErr result (WaitBehind (Waits core.old) (Waits core.new) 0 (most_writes call)
        (puts_for call)) }
{
    match core.name_alone(caller, call, steps) {
        Once::Done(placed) => Ok(placed.old),
        // A call that is alone is turned back for want of room only.
        Once::Again(_) => Err(Full),
        // There is a lock left, and the clock is below the limit.
        Once::Spent { .. } | Once::Worn { .. } => unreachable!(),
    }
}

/// A whole part of a scan on an index that has calls left, with no call in flight: it lists the first names from the
/// low one on, so many at most, of those that belong to its member.
fn list_alone<L: Ledger>(
    core: &mut Core,
    caller: u64,
    low: &Name,
    count: u64,
    steps: &mut Steps<L>,
) -> PartWords
    requires index { IsIndex core.old }
    requires quiet { IsQuiet core.old }
    requires caller { caller < core.old.layout.callers }
    requires calls_left { 0 < calls_left_of core.old }
    ensures high { result.high ≡ next_of (anchors_in (world core.old)) low.now }
    ensures lists { ListsRange (map_of_index core.old) low.now count result }
    ensures same { HoldsSame (state_of core.old) (state_of core.new) }
    ensures quiet { StaysQuiet core.old core.new 1 0 }
    ensures waits { WaitOn (Waits core.old) (Waits core.new) }
{
    match core.part_alone(caller, *low, count, steps) {
        Once::Done(words) => words,
        // There is a lock left.
        Once::Spent { .. } | Once::Worn { .. } | Once::Again(_) => unreachable!(),
    }
}
