//! The core of the index as a map of names whose calls have a budget of events.

ghost use Rattle.std.specs.Prelude.{◌≡◌, ℕ, ◌+◌, ◌<◌, ◌≤◌, List, [], ◌∷◌, IfOk, false};
ghost use Rattle.cat_history.specs.Records.{as_op, change_of};
ghost use Rattle.core_rounds.specs.index_core.specs.CoreCalls.{most_writes, op_of};
ghost use Rattle.core_rounds.specs.index_core.specs.Indexes.{IsIndex};
ghost use Rattle.core_rounds.specs.index_core.specs.Listings.{ListsRange};
ghost use Rattle.shapes.specs.Anchors.{next_of};
ghost use Rattle.cat_history.specs.declared.op.CallerOp.{CallerOp};
ghost use Rattle.stopped_rounds.specs.Bounded.{ComesTo, IsInTime, IsSame};
ghost use Rattle.core_rounds.specs.CoreMaps.{IsOfRun, IsUnlimited};
ghost use Rattle.core_rounds.specs.CrashWork.{most_events};
ghost use Rattle.core_crashes.specs.CrashMaps.{FindRoom, Gave, IsTurnless, WasCutBy, added_within};
ghost use Rattle.core_rounds.specs.index_core.specs.Fulls.{HasLowStamps};
ghost use Rattle.core_rounds.specs.index_core.specs.Lone.{IsQuiet};
ghost use Rattle.index_law.specs.Anchors.{anchors_in};
ghost use Rattle.core_rounds.specs.index_core.specs.Indexes.{world};

use call_stages::Once;
use cat_history::{Items, NoMemory};
use cat_key::Name;
use core_rounds::index_core::{Core, CoreCall, LONE_STAMP, listed_pairs};
use core_rounds::node_ops::PartWords;
use pm_words::{MOST_WRITES, Steps};
use shapes::{Full, MapPart};
use std::alloc::Global;
use std::marker::{Brand, Model, PhantomData};
use std::sync::ledger::Ledger;
use stopped_rounds::{Bounded, BoundedMap};

/// The layout and the generation of a run of the index, and where its members began, for proofs alone.
pub trait CrashRun {
    ghost use Rattle.std.specs.Prelude.{ℕ};
    ghost use Rattle.pm_words.specs.declared.layout.Layout.{Layout};
    ghost use Rattle.shapes.specs.Anchors.{Anchors};

    ghost layout: { Layout };

    ghost generation: { ℕ };

    ghost anchors: { Anchors };
}

impl CrashRun for Brand {
    ghost use Rattle.std.specs.Prelude.{[], ◌∷◌};

    ghost layout = { record { nodes = 1; slots = 4; callers = 1 } };

    ghost generation = { 2 };

    ghost anchors = { [] ∷ [] };
}

/// The index as a map of names whose calls, all of one caller, have a budget. Once a call was cut off, which stays in
/// flight, each call is cut off before its first event. A turn of the updater that was cut off stays in flight too, and
/// has the updater lock: no other one is begun, and calls that need one are cut off.
#[derive(Drop)]
pub struct CrashMap<L: Ledger, K: CrashRun> {
    core: Core,
    caller: u64,
    /// Whether a call was cut off.
    stopped: bool,
    /// Whether a turn of the updater was.
    turning: bool,
    /// Whether the call that was cut off is a write that has its place.
    placed: bool,
    steps: Steps<L>,
    run: PhantomData<K>,
}

impl<L: Ledger, K: CrashRun> Model for CrashMap<L, K> {
    ghost use Rattle.std.specs.Prelude.{◌<◌};
    ghost use Rattle.core_crashes.specs.CrashMaps.{Stoppable, IsStoppable};
    ghost use Rattle.core_rounds.specs.CoreMaps.{IsOfRun};

    ghost Value = { Stoppable };

    ghost view = { λ m. record { index = m.core; stopped = m.stopped; turning = m.turning; placed = m.placed } };

    ghost invariant = { λ m. IsStoppable K.anchors
        (record { index = m.core; stopped = m.stopped; turning = m.turning; placed = m.placed }) ×
        IsOfRun K.layout K.generation m.core × (m.caller < K.layout.callers) };
}

impl<L: Ledger, K: CrashRun> CrashMap<L, K> {
    ghost use Rattle.core_crashes.specs.CrashMaps.{calls_of, state_of, weighs_of, writes_of};

    /// The map of a core in which a round begins, whose calls are those of this caller.
    pub fn of_core(core: Core, caller: u64, steps: Steps<L>) -> CrashMap<L, K>
        requires index { IsIndex core }
        requires quiet { IsQuiet core }
        requires stamps { HasLowStamps core }
        requires begins { core.history ≡ [] }
        requires run { IsOfRun K.layout K.generation core }
        requires caller { caller < core.layout.callers }
        requires anchors { K.anchors ≡ anchors_in (world core) }
        ensures { result ≡ record { index = core; stopped = false; turning = false; placed = false } }
    {
        CrashMap {
            core,
            caller,
            stopped: false,
            turning: false,
            placed: false,
            steps,
            run: PhantomData,
        }
    }

    /// The core as calls left it, with what was cut off in flight.
    pub fn into_core(self) -> Core
        ensures core { result ≡ self.index }
        ensures index { IsIndex result }
        ensures run { IsOfRun K.layout K.generation result }
    {
        self.core
    }

    /// A whole call on a name within a budget. `Full` comes exactly where a put is full in the shape.
    fn name_call(&mut self, call: CoreCall, budget: &mut u64) -> Bounded<Result<Option<u64>, Full>>
        requires unlimited { IsUnlimited call }
        requires uncut { (state_of K.anchors self.old).cut ≡ [] }
        requires calls { 0 < calls_of self.old }
        requires writes { most_writes call ≤ writes_of self.old }
        ensures ends { ComesTo result
            (λ answer. Gave self.old.index.layout.slots self.old.index.layout.nodes (state_of K.anchors self.old) call
            answer (state_of K.anchors self.new))
            (λ placed. (budget.new ≡ 0) ×
            WasCutBy (state_of K.anchors self.old) (change_of (op_of call)) placed (state_of K.anchors self.new)) }
        ensures layout { self.new.index.layout ≡ self.old.index.layout }
        ensures calls_left { calls_of self.old ≤ calls_of self.new + 1 }
        ensures writes_left { writes_of self.old ≤ writes_of self.new + most_writes call }
        ensures weighs { weighs_of self.new ≤ weighs_of self.old + added_within (op_of call) result }
        ensures in_time { (a : CallerOp) (rest : List CallerOp) → a.op ≡ as_op (op_of call) →
            IsTurnless self.old (a ∷ rest) →
            IsInTime result most_events budget.old budget.new (IsTurnless self.new rest) }
        ensures room { (a : CallerOp) (rest : List CallerOp) → a.op ≡ as_op (op_of call) →
            FindRoom K.anchors self.old (a ∷ rest) →
            ComesTo result (λ _. FindRoom K.anchors self.new rest) (λ _. Unit {0}) }
    {
        if self.stopped {
            *budget = 0;
            return Bounded::Cut { placed: false };
        }
        let before = self.core.history().len();
        let Some(answer) = self
            .core
            .name_within(self.caller, call, budget, &mut self.steps)
        else {
            let placed = self.core.history().len() > before;
            self.stopped = true;
            self.placed = placed;
            return Bounded::Cut { placed };
        };
        match answer {
            Once::Done(placed) => Bounded::Answered(Ok(placed.old)),
            // A lone call is turned back for want of room only, and that behind a whole turn of its own.
            Once::Again(_) => Bounded::Answered(Err(Full)),
            // There is a lock left, and the clock is below the limit.
            Once::Spent { .. } | Once::Worn { .. } => unreachable!(),
        }
    }

    /// A whole part of a scan within a budget: the first names from the low one on, so many at most, of those that
    /// belong to its member.
    fn list(&mut self, low: &Name, count: u64, budget: &mut u64) -> Bounded<PartWords>
        requires uncut { (state_of K.anchors self.old).cut ≡ [] }
        requires calls { 0 < calls_of self.old }
        ensures ends { ComesTo result
            (λ words. (words.high ≡ next_of (state_of K.anchors self.old).anchors low.now) ×
            ListsRange (state_of K.anchors self.old).contents low.now count words)
            (λ placed. budget.new ≡ 0) }
        ensures same { IsSame (state_of K.anchors self.old) (state_of K.anchors self.new) }
        ensures layout { self.new.index.layout ≡ self.old.index.layout }
        ensures calls_left { calls_of self.old ≤ calls_of self.new + 1 }
        ensures writes_left { writes_of self.old ≤ writes_of self.new }
        ensures weighs { weighs_of self.new ≤ weighs_of self.old }
    {
        if self.stopped {
            *budget = 0;
            return Bounded::Cut { placed: false };
        }
        let Some(answer) = self
            .core
            .part_within(self.caller, *low, count, budget, &mut self.steps)
        else {
            self.stopped = true;
            return Bounded::Cut { placed: false };
        };
        match answer {
            Once::Done(words) => Bounded::Answered(words),
            // There is a lock left.
            Once::Spent { .. } | Once::Worn { .. } | Once::Again(_) => unreachable!(),
        }
    }
}

impl<L: Ledger, K: CrashRun> BoundedMap for CrashMap<L, K> {
    ghost use Rattle.core_rounds.specs.index_core.specs.Costs.{turn_actions};
    ghost use Rattle.core_rounds.specs.CrashWork.{most_events};
    ghost use Rattle.core_crashes.specs.CrashMaps.{FindRoom, IsTurnless, calls_of, most_between, state_of};
    ghost use Rattle.core_crashes.specs.CrashMaps.{weighs_of, writes_of};

    ghost state = { state_of K.anchors };

    ghost slots = { λ map. map.index.layout.slots };

    ghost most = { λ map. map.index.layout.nodes };

    ghost calls_left = { calls_of };

    ghost writes_left = { writes_of };

    ghost weighs = { weighs_of };

    ghost turnless = { IsTurnless };

    ghost call_events = { most_events };

    ghost has_room = { FindRoom K.anchors };

    ghost calls_between = { most_between };

    ghost turn_events = { turn_actions K.layout };

    fn has_shape(&self) {
        // Its fields have what is known of it.
        let _stopped = self.stopped;
    }

    fn get(&mut self, name: &Name, budget: &mut u64) -> Bounded<Option<u64>> {
        let call = CoreCall::Get { name: *name };
        match self.name_call(call, budget) {
            Bounded::Answered(Ok(old)) => Bounded::Answered(old),
            Bounded::Answered(Err(Full)) => unreachable!(),
            Bounded::Cut { placed } => Bounded::Cut { placed },
        }
    }

    fn part(
        &mut self,
        alloc: Global,
        low: &Name,
        count: u64,
        budget: &mut u64,
    ) -> Result<Bounded<MapPart>, NoMemory> {
        match self.list(low, count, budget) {
            Bounded::Answered(words) => Ok(Bounded::Answered(MapPart {
                high: words.high,
                pairs: Items::of(listed_pairs(alloc, &words)?),
            })),
            Bounded::Cut { placed } => Ok(Bounded::Cut { placed }),
        }
    }

    fn put(
        &mut self,
        name: &Name,
        value: u64,
        budget: &mut u64,
    ) -> Bounded<Result<Option<u64>, Full>> {
        let call = CoreCall::Put {
            name: *name,
            value,
            limit: MOST_WRITES,
        };
        self.name_call(call, budget)
    }

    fn del(&mut self, name: &Name, budget: &mut u64) -> Bounded<Option<u64>> {
        let call = CoreCall::Del {
            name: *name,
            limit: MOST_WRITES,
        };
        match self.name_call(call, budget) {
            Bounded::Answered(Ok(old)) => Bounded::Answered(old),
            Bounded::Answered(Err(Full)) => unreachable!(),
            Bounded::Cut { placed } => Bounded::Cut { placed },
        }
    }

    fn turn(&mut self, budget: &mut u64) {
        if self.stopped || self.turning || *budget == 0 {
            return;
        }
        let updater = self.core.layout().callers();
        let Some(_) = self
            .core
            .turn_within(updater, LONE_STAMP, LONE_STAMP, budget, &mut self.steps)
        else {
            self.turning = true;
            return;
        };
    }
}
