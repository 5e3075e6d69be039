//! Single tries of calls on a name, and what they leave of their callers.

ghost use Rattle.pac_index.specs.declared.shared.Shared.{Shared};
ghost use Rattle.std.specs.Prelude.{OnOk, IfSome, Some, ◌≡◌, ◌+◌, ◌++◌, ◌≤◌, ◌^◌, length};
ghost use Rattle.cat_history.specs.Records.{change_of};
ghost use Rattle.index_core.specs.CoreCalls.{MayBegin, op_of, most_writes};
ghost use Rattle.index_core.specs.declared.party.CoreCall.TheVariants as call;
ghost use Rattle.pm_words.specs.declared.again.Again.TheVariants as again;
ghost use Rattle.call_stages.specs.declared.once.Once.TheVariants as once;
ghost use Rattle.index_core.specs.MachineLaws.{place_told};
ghost use Rattle.pac_index.specs.declared.tried.Tried.TheVariants as tried;
ghost use Rattle.pac_index.specs.Cuts.{HasPaid, IsStoppedTry};
ghost use Rattle.pac_index.specs.Calls.{own_at, counted_index};
ghost use Rattle.pac_index.specs.Callers.{IsCallerOf, MayCall, StaysCaller, spare_of, pairs};
ghost use Rattle.pac_index.specs.Outcomes.{PartTryComesTo, TryComesTo, TryTakesSpare};

use crate::caller::{Caller, CutCall, PlacedWrite};
use crate::gate::{Gate, OpenGate, Pace};
use crate::ran::Ran;
use crate::shared::Shared;
use crate::tried::Tried;
use call_stages::{Once, Placed};
use cat_history::{Change, Write};
use cat_key::Name;
use epochs::EpochMoved;
use index_core::CoreCall;
use node_ops::PartWords;
use pm_words::{Again, NoMemory};
use std::marker::Brand;

impl Shared {
    /// One try of a put by one of the callers before the last, which is the updater's. It is refused as spent where the
    /// clock, loaded under the lock of its node, has reached `limit`. Of the room for writes that `Caller::reserve`
    /// makes it takes one place at most, and only where it is placed.
    ///
    /// As each single try of a call it takes a pin first, holds it over all its steps on the index, and gives it back
    /// behind the last. Where the epoch moves as it takes the pin, it is answered `Again::Epoch` with the two numbers
    /// that it loaded, and has made no step on the index; no try is answered so elsewhere.
    pub fn put_once(
        &self,
        caller: &mut Caller,
        name: &Name,
        value: u64,
        limit: u64,
    ) -> Tried<Placed>
        requires may { MayCall self.now caller.old }
        requires limit { limit ≤ 2 ^ 62 }
        requires spare { 1 ≤ spare_of caller.old }
        ensures stays { StaysCaller self.now caller.old caller.new }
        ensures tried { TryComesTo (call.Put name.now value limit) caller.old result caller.new }
        ensures paid { HasPaid caller.old caller.new }
        ensures stopped { IsStoppedTry caller.old result caller.new }
        ensures spare { TryTakesSpare (call.Put name.now value limit) caller.old result caller.new }
    {
        let name = *name;
        self.try_call(caller, CoreCall::Put { name, value, limit }, &OpenGate)
    }

    /// One try of a get by one of the callers before the last, with a pin as a put has one.
    pub fn get_once(&self, caller: &mut Caller, name: &Name) -> Tried<Placed>
        requires may { MayCall self.now caller.old }
        ensures stays { StaysCaller self.now caller.old caller.new }
        ensures tried { TryComesTo (call.Get name.now) caller.old result caller.new }
        ensures paid { HasPaid caller.old caller.new }
        ensures stopped { IsStoppedTry caller.old result caller.new }
        ensures spare { spare_of caller.old ≤ spare_of caller.new }
    {
        self.try_call(caller, CoreCall::Get { name: *name }, &OpenGate)
    }

    /// One try of a delete by one of the callers before the last, with a pin, refused and placed as a put is. One that
    /// leaves few names may merge its node with the next one.
    pub fn del_once(&self, caller: &mut Caller, name: &Name, limit: u64) -> Tried<Placed>
        requires may { MayCall self.now caller.old }
        requires limit { limit ≤ 2 ^ 62 }
        requires spare { 1 ≤ spare_of caller.old }
        ensures stays { StaysCaller self.now caller.old caller.new }
        ensures tried { TryComesTo (call.Del name.now limit) caller.old result caller.new }
        ensures paid { HasPaid caller.old caller.new }
        ensures stopped { IsStoppedTry caller.old result caller.new }
        ensures spare { TryTakesSpare (call.Del name.now limit) caller.old result caller.new }
    {
        let name = *name;
        self.try_call(caller, CoreCall::Del { name, limit }, &OpenGate)
    }

    /// One try of a part of a range scan by one of the callers before the last, with a pin as a put has one: it lists
    /// the first `count` names from the low one on, of those that the low one's node has, with their numbers as the map
    /// has them at a place of the part's time, and tells where they end.
    pub fn part_once(&self, caller: &mut Caller, low: &Name, count: u64) -> Tried<PartWords>
        requires may { MayCall self.now caller.old }
        ensures stays { StaysCaller self.now caller.old caller.new }
        ensures tried { PartTryComesTo low.now count caller.old result caller.new }
        ensures paid { HasPaid caller.old caller.new }
        ensures stopped { IsStoppedTry caller.old result caller.new }
        ensures spare { spare_of caller.old ≤ spare_of caller.new }
    {
        let mut pace = Pace::begin(&OpenGate, caller, caller.index);
        self.try_part(caller, *low, count, &mut pace)
    }

    /// One try of a call on one name, with the gate before its first step and between its steps on the index.
    pub fn try_call<G: Gate>(&self, caller: &mut Caller, call: CoreCall, gate: &G) -> Tried<Placed>
        requires may { MayCall self.now caller.old }
        requires begins { MayBegin call }
        requires spare { most_writes call ≤ spare_of caller.old }
        ensures stays { StaysCaller self.now caller.old caller.new }
        ensures tried { TryComesTo call caller.old result caller.new }
        ensures paid { HasPaid caller.old caller.new }
        ensures stopped { IsStoppedTry caller.old result caller.new }
        ensures spare { TryTakesSpare call caller.old result caller.new }
    {
        let mut pace = Pace::begin(gate, caller, caller.index);
        self.try_at_pace(caller, &call, &mut pace)
    }

    /// One try of a call on one name, of a whole call that goes at this pace, under a pin of its own. Its pin is given
    /// back where it is cut off too.
    pub(crate) fn try_at_pace<G: Gate>(
        &self,
        caller: &mut Caller,
        call: &CoreCall,
        pace: &mut Pace<'_, G>,
    ) -> Tried<Placed>
        requires may { MayCall self.now caller.old }
        requires begins { MayBegin call.now }
        requires spare { most_writes call.now ≤ spare_of caller.old }
        ensures stays { StaysCaller self.now caller.old caller.new }
        ensures tried { TryComesTo call.now caller.old result caller.new }
        ensures paid { HasPaid caller.old caller.new }
        ensures stopped { IsStoppedTry caller.old result caller.new }
        ensures spare { TryTakesSpare call.now caller.old result caller.new }
    {
        if caller.is_spent() {
            return Tried::Cut;
        }
        let pin = match self.epochs.pin_once(&mut caller.pins) {
            Ok(pin) => pin,
            Err(moved) => return turned_back(moved),
        };
        let ran = self.run::<Brand, G>(
            &mut caller.seat,
            caller.number,
            caller.index,
            *call,
            &caller.pins,
            &pin,
            &mut caller.left,
            &mut caller.rooms,
            pace,
        );
        self.epochs.unpin(&mut caller.pins, pin);
        match ran {
            Ran::Answered(answer) => {
                caller.keep(change_of(call), answer);
                Tried::Answered(answer)
            }
            Ran::Cut { place } => {
                caller.keep_cut(call, place);
                Tried::Cut
            }
        }
    }

    /// One try of a part of a range scan, of a whole call that goes at this pace, under a pin of its own.
    pub(crate) fn try_part<G: Gate>(
        &self,
        caller: &mut Caller,
        low: Name,
        count: u64,
        pace: &mut Pace<'_, G>,
    ) -> Tried<PartWords>
        requires may { MayCall self.now caller.old }
        ensures stays { StaysCaller self.now caller.old caller.new }
        ensures tried { PartTryComesTo low count caller.old result caller.new }
        ensures paid { HasPaid caller.old caller.new }
        ensures stopped { IsStoppedTry caller.old result caller.new }
        ensures spare { spare_of caller.old ≤ spare_of caller.new }
    {
        if caller.is_spent() {
            return Tried::Cut;
        }
        let pin = match self.epochs.pin_once(&mut caller.pins) {
            Ok(pin) => pin,
            Err(moved) => return turned_back(moved),
        };
        let ran = self.run_part::<Brand, G>(
            &mut caller.seat,
            caller.number,
            caller.index,
            low,
            count,
            &caller.pins,
            &pin,
            &mut caller.left,
            pace,
        );
        self.epochs.unpin(&mut caller.pins, pin);
        match ran {
            Ran::Answered(answer) => {
                caller.index = index_after(caller.index, &answer);
                Tried::Answered(answer)
            }
            Ran::Cut { place } => {
                caller.keep_cut(&CoreCall::Part { low, count }, place);
                Tried::Cut
            }
        }
    }
}

impl Caller {
    /// Its number among the callers of its index.
    pub fn number(&self) -> u64
        ensures { result ≡ self.now.number }
    {
        self.number
    }

    /// The index of its next call.
    pub fn index(&self) -> u64
        ensures { result ≡ self.now.index }
    {
        self.index
    }

    /// Makes room for so many more writes. Nothing else changes, on `NoMemory` either.
    pub fn reserve(&mut self, writes: u64) -> Result<(), NoMemory>
        ensures ok { OnOk result (writes ≤ spare_of self.new) }
        ensures spare { spare_of self.old ≤ spare_of self.new }
        ensures same { (self.new.seat ≡ self.old.seat) × (self.new.number ≡ self.old.number) ×
            (self.new.index ≡ self.old.index) × (self.new.kept.items ≡ self.old.kept.items) }
        ensures pins { self.new.pins ≡ self.old.pins }
        ensures bound { (self.new.left ≡ self.old.left) × (self.new.cut ≡ self.old.cut) }
        ensures caller { (s : Shared) → IsCallerOf s self.old → IsCallerOf s self.new }
    {
        self.kept.reserve(writes as usize)
    }

    /// Counts a call that was answered, and keeps its write if it was placed.
    pub(crate) fn keep(&mut self, change: Option<Change>, answer: Once<Placed>)
        requires { IfSome change (λ _. 1 ≤ spare_of self.old) }
        ensures seat { (self.new.seat ≡ self.old.seat) × (self.new.pins ≡ self.old.pins) ×
            (self.new.number ≡ self.old.number) }
        ensures bound { (self.new.left ≡ self.old.left) × (self.new.cut ≡ self.old.cut) }
        ensures index { self.new.index ≡ counted_index self.old.index answer }
        ensures kept { pairs self.new.kept.items ≡ pairs self.old.kept.items ++ own_at self.old.number self.old.index
            change (place_told change answer) }
        ensures spare { spare_of self.old ≤ spare_of self.new + length
            (own_at self.old.number self.old.index change (place_told change answer)) }
    {
        if let Once::Done(placed) = answer
            && let Some(change) = change
        {
            self.keep_write(change, placed.place);
        }
        self.index = index_after(self.index, &answer);
    }

    /// Tells of a call that was cut off behind a step, and keeps its write if it has its place.
    fn keep_cut(&mut self, call: &CoreCall, place: Option<u64>)
        requires { most_writes call.now ≤ spare_of self.old }
        ensures seat { (self.new.seat ≡ self.old.seat) × (self.new.pins ≡ self.old.pins) ×
            (self.new.number ≡ self.old.number) }
        ensures left { self.new.left ≡ self.old.left }
        ensures cut { self.new.cut ≡ Some (record { call = call.now; index = self.old.index; place = place }) }
        ensures index { self.new.index ≡ self.old.index }
        ensures kept { pairs self.new.kept.items ≡ pairs self.old.kept.items ++ own_at self.old.number self.old.index
            (change_of (op_of call.now)) place }
        ensures spare { spare_of self.old ≤ spare_of self.new + length
            (own_at self.old.number self.old.index (change_of (op_of call.now)) place) }
    {
        if let Some(place) = place
            && let Some(change) = change_of(call)
        {
            self.keep_write(change, place);
        }
        self.cut = Some(CutCall {
            call: *call,
            index: self.index,
            place,
        });
    }

    /// Keeps the write of its call, which has this place.
    fn keep_write(&mut self, change: Change, place: u64)
        requires { 1 ≤ spare_of self.old }
        ensures seat { (self.new.seat ≡ self.old.seat) × (self.new.pins ≡ self.old.pins) ×
            (self.new.number ≡ self.old.number) }
        ensures bound { (self.new.left ≡ self.old.left) × (self.new.cut ≡ self.old.cut) }
        ensures index { self.new.index ≡ self.old.index }
        ensures kept { pairs self.new.kept.items ≡ pairs self.old.kept.items ++ own_at self.old.number self.old.index
            (Some change) (Some place) }
        ensures spare { spare_of self.old ≤ spare_of self.new + 1 }
    {
        let write = Write {
            caller: self.number,
            index: self.index,
            change,
        };
        self.kept.push_reserved(PlacedWrite { place, write });
    }
}

/// The change that a call makes, if it is a put or a delete.
fn change_of(call: &CoreCall) -> Option<Change>
    ensures change { result ≡ change_of (op_of call.now) }
    ensures writes { IfSome result (λ _. most_writes call.now ≡ 1) }
{
    match *call {
        CoreCall::Put { name, value, .. } => Some(Change::Put { name, value }),
        CoreCall::Del { name, .. } => Some(Change::Del { name }),
        CoreCall::Get { .. } | CoreCall::Part { .. } => None,
        CoreCall::Recheck { .. } | CoreCall::Turn { .. } => None,
    }
}

/// The try was turned back, since the epoch moved as it took its pin.
pub(crate) fn turned_back<T>(moved: EpochMoved) -> Tried<T>
    ensures { result ≡ tried.Answered (once.Again (again.Epoch moved.first moved.second)) }
{
    let EpochMoved { first, second } = moved;
    Tried::Answered(Once::Again(Again::Epoch { first, second }))
}

/// The index of the next call: one that is turned back uses up none, nor one that finds the node worn.
fn index_after<T>(index: u64, answer: &Once<T>) -> u64
    ensures { result ≡ counted_index index answer.now }
{
    match answer {
        Once::Again(_) | Once::Worn { .. } => index,
        _ => index.saturating_add(1),
    }
}
