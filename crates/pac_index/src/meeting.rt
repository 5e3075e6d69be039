//! How a shared index becomes a core once more, as its callers meet.

ghost use Rattle.std.specs.Prelude.{◌≡◌, ℕ, List, [], length, map, IfOk, MatchBool, true};
ghost use mathlib.Core.Option.{some};
ghost use Rattle.index_core.specs.Indexes.{parties_of};
ghost use Rattle.index_core.specs.MachineLaws.{AreIdle};
ghost use lib.ListN.{get_elem?};
ghost use Rattle.cat_history.specs.declared.op.Write.{Write};
ghost use Rattle.pac_index.specs.Callers.{AreAtRest, AreWritesOf, HasCallers, HaveSteps, IsCallerOf, Meeting};
ghost use Rattle.pac_index.specs.Callers.{SomeIsSpent, kept_by, seen_by};
ghost use Rattle.pac_index.specs.declared.caller.Caller.{Caller};
ghost use Rattle.pac_index.specs.declared.shared.Shared.{Shared};
ghost use Rattle.std.specs.Mem.Slots.{slots_items, slots_len, IsFull};

use crate::caller::{Caller, PlacedWrite};
use crate::rule::{About, ByOutcome, EmptySeat, JoinAll, Members};
use crate::shared::Shared;
use crate::stamps::settle_stamps;
use atomic_table::{Closed, Seat};
use cat_history::Write;
use index_core::{Core, Flight, Parts, PartyState};
use pm_words::{Memory, NoMemory};
use std::alloc::Global;

impl Shared {
    /// The core once more, when all callers are back, the updater's too, each with no call in flight. Each stamp that
    /// isn't 0 becomes 1. On `NoMemory` the index is gone.
    pub fn close(self, alloc: Global, callers: Vec<Caller>) -> Result<Core, NoMemory>
        requires callers { HasCallers self (parties_of self.about.layout) callers.items }
        requires rests { AreAtRest callers.items }
        ensures meeting { IfOk result (Meeting self callers.items) }
    {
        let states = idle_states(alloc, callers.as_slice())?;
        let kept = all_kept(alloc, callers.as_slice())?;
        let seat = self.gathered(callers);
        let Shared {
            table,
            about,
            epochs: _,
        } = self;
        let count = table.word_count();
        let closed = table.close_with(seat);
        let words = read_words(alloc, &closed, count);
        closed.free();
        let words = words?;
        let clock = words[0];
        let history = in_order(alloc, kept.as_slice(), clock)?;
        let About {
            layout,
            generation,
            base,
            opened: _,
        } = about;
        let mut memory = Memory::of_words(layout, words);
        settle_stamps(&mut memory);
        Ok(Core::of_parts(Parts {
            memory,
            generation,
            states,
            base,
            history,
        }))
    }

    /// One seat, which has the parties of all callers, whatever is in flight.
    pub(crate) fn gathered(&self, mut callers: Vec<Caller>) -> Seat<(), Members>
        requires { (i : ℕ) (c : Caller) → get_elem? callers.items i ≡ some c → IsCallerOf self.now c }
        ensures table { result.table_id ≡ self.now.table.shared.table_id }
        ensures all { result.me ≡ (map seen_by callers.items, []) }
    {
        let table = &self.table.shared;
        let (_, mut all) = table.load_new_seat::<ByOutcome<EmptySeat>>(0);
        while let Some(caller) = callers.pop() {
            let Caller { mut seat, .. } = caller;
            table.join_seat::<JoinAll>(&mut seat, all);
            all = seat;
        }
        all
    }
}

/// Whether each of these callers has a step left. Then none of them has a call or a turn in flight.
pub fn have_steps(callers: &[Caller]) -> bool
    ensures steps { MatchBool result (HaveSteps callers.now) (SomeIsSpent callers.now) }
    ensures rests { result ≡ true → (s : Shared) (n : ℕ) → HasCallers s n callers.now → AreAtRest callers.now }
{
    for number in 0..callers.len() {
        if callers[number].is_spent() {
            return false;
        }
    }
    true
}

/// The words of a closed table.
pub(crate) fn read_words(
    alloc: Global,
    closed: &Closed<(), Global>,
    count: usize,
) -> Result<Vec<u64>, NoMemory>
    requires count { slots_len closed.now.words ≡ count }
    requires full { IsFull closed.now.words }
    ensures { IfOk result (λ v. v.items ≡ slots_items closed.now.words) }
{
    let mut words = Vec::with_capacity(alloc, count)?;
    for address in 0..count {
        words.push_reserved(closed.word(address));
    }
    Ok(words)
}

/// The callers' parties, with no call in flight.
fn idle_states(alloc: Global, callers: &[Caller]) -> Result<Vec<PartyState>, NoMemory>
    ensures { IfOk result (λ states. AreIdle states.items (length callers.now)) }
{
    let mut states = Vec::with_capacity(alloc, callers.len())?;
    for number in 0..callers.len() {
        states.push_reserved(PartyState {
            caller: number as u64,
            index: callers[number].index,
            since: 0,
            machine: Flight::idle(),
            turn: None,
            recheck: None,
        });
    }
    Ok(states)
}

/// All the writes that callers have kept.
fn all_kept(alloc: Global, callers: &[Caller]) -> Result<Vec<PlacedWrite>, NoMemory>
    ensures { IfOk result (λ v. v.items ≡ kept_by callers.now) }
{
    let mut kept = Vec::new(alloc);
    for number in 0..callers.len() {
        kept.extend_from_slice(callers[number].kept.as_slice())?;
    }
    Ok(kept)
}

/// The writes of a history in order, of which these are all: each is put at its place.
fn in_order(alloc: Global, kept: &[PlacedWrite], clock: u64) -> Result<Vec<Write>, NoMemory>
    requires { (h : List Write) × (length h ≡ clock) × AreWritesOf kept.now h }
    ensures { IfOk result (λ v. (h : List Write) → length h ≡ clock → AreWritesOf kept.now h → v.items ≡ h) }
{
    let mut history = Vec::new(alloc);
    if kept.is_empty() {
        return Ok(history);
    }
    history.resize(clock as usize, kept[0].write)?;
    for number in 0..kept.len() {
        let PlacedWrite { place, write } = kept[number];
        history[place as usize] = write;
    }
    Ok(history)
}
