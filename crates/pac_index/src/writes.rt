//! Puts and deletes that are made again until they take place, with turns of the updater where they need them.

ghost use Rattle.std.specs.Prelude.{◌≡◌, ◌≤◌, ◌^◌};
ghost use Rattle.index_core.specs.declared.party.CoreCall.TheVariants as call;
ghost use Rattle.index_core.specs.CoreCalls.{MayBegin, most_writes};
ghost use Rattle.pac_index.specs.Cuts.{HasPaid};
ghost use Rattle.pac_index.specs.Callers.{HasMadeNone, IsAtRest, IsCallerOf, MayCall, StaysCaller, spare_of};
ghost use Rattle.pac_index.specs.CutWrites.{HasTurnedWithin, NextSo, WriteSo, next_of};
ghost use Rattle.pac_index.specs.Outcomes.{DelComesTo, WriteComesTo, WriteTakesSpare};

use crate::caller::Caller;
use crate::ended::Ended;
use crate::gate::{Gate, OpenGate, Pace};
use crate::shared::Shared;
use crate::tried::Tried;
use call_stages::{Once, Placed};
use cat_key::Name;
use index_core::CoreCall;
use pm_words::Again;
use std::sync::Wait;
use std::thread::yield_now;
use updater::Turned;

/// From which of its turns for want of a node on a put may end full: until then nodes that are GONE as it begins may
/// become FREE.
const TURNS_FOR_ROOM: u64 = 4;

/// What comes behind one try of a put or a delete.
pub(crate) enum WriteNext {
    End(Ended<Placed>),
    Retry,
    TurnForLine,
    TurnForNode,
}

/// What one try of a put or a delete comes to, with a turn of the updater behind it where it wants one.
pub(crate) enum WriteTry {
    Ended(Ended<Placed>),
    /// It was turned back, and is made again.
    Back,
    /// It found no node to split its own with; and whether the turn behind it found none FREE either.
    NoRoom { none_free: bool },
}

impl Shared {
    /// A put by one of the callers before the last, which is the updater's. It is tried again while it is turned back
    /// or finds its node worn, so it may wait for as long as another caller holds the node. Behind a try that finds no
    /// EMPTY log line, and behind one that finds no FREE node, it makes a turn of the updater, which may wait for
    /// another party's turn. It ends `Full` where the fourth such turn for a node, or a later one, finds none FREE.
    pub fn put<R: Wait>(
        &self,
        rt: &R,
        caller: &mut Caller,
        name: &Name,
        value: u64,
        limit: u64,
    ) -> Ended<Placed>
        requires may { MayCall self.now caller.old }
        requires limit { limit ≤ 2 ^ 62 }
        requires spare { 1 ≤ spare_of caller.old }
        ensures stays { StaysCaller self.now caller.old caller.new }
        ensures ends { WriteComesTo self.now.epochs.parties (call.Put name.now value limit) caller.old result
            caller.new }
        ensures paid { HasPaid caller.old caller.new }
        ensures spare { WriteTakesSpare (call.Put name.now value limit) caller.old result caller.new }
    {
        let name = *name;
        self.write(rt, caller, CoreCall::Put { name, value, limit }, &OpenGate)
    }

    /// A delete by one of the callers before the last, in the same way. It needs no node, so it is never full.
    pub fn del<R: Wait>(
        &self,
        rt: &R,
        caller: &mut Caller,
        name: &Name,
        limit: u64,
    ) -> Ended<Placed>
        requires may { MayCall self.now caller.old }
        requires limit { limit ≤ 2 ^ 62 }
        requires spare { 1 ≤ spare_of caller.old }
        ensures stays { StaysCaller self.now caller.old caller.new }
        ensures ends { DelComesTo self.now.epochs.parties name.now limit caller.old result caller.new }
        ensures paid { HasPaid caller.old caller.new }
        ensures spare { WriteTakesSpare (call.Del name.now limit) caller.old result caller.new }
    {
        let name = *name;
        self.write(rt, caller, CoreCall::Del { name, limit }, &OpenGate)
    }

    /// A put or a delete, with the gate before its first step and between its steps, over all tries and turns.
    pub fn write<R: Wait, G: Gate>(
        &self,
        rt: &R,
        caller: &mut Caller,
        call: CoreCall,
        gate: &G,
    ) -> Ended<Placed>
        requires may { MayCall self.now caller.old }
        requires begins { MayBegin call }
        requires spare { most_writes call ≤ spare_of caller.old }
        ensures stays { StaysCaller self.now caller.old caller.new }
        ensures ends { WriteComesTo self.now.epochs.parties call caller.old result caller.new }
        ensures paid { HasPaid caller.old caller.new }
        ensures spare { WriteTakesSpare call caller.old result caller.new }
    {
        let mut pace = Pace::begin(gate, caller, caller.index);
        let mut turns = 0u64;
        for _ in rt.forever() {
            match self.try_to_write(rt, caller, &call, &mut pace) {
                WriteTry::Ended(ended) => return ended,
                WriteTry::Back => {}
                WriteTry::NoRoom { none_free } => {
                    turns = turns.saturating_add(1);
                    if none_free && turns >= TURNS_FOR_ROOM {
                        caller.index = caller.index.saturating_add(1);
                        return Ended::Full;
                    }
                }
            }
            yield_now();
        }
        unreachable!()
    }

    /// One try of a put or a delete, and a turn behind it where it wants one.
    fn try_to_write<R: Wait, G: Gate>(
        &self,
        rt: &R,
        caller: &mut Caller,
        call: &CoreCall,
        pace: &mut Pace<'_, G>,
    ) -> WriteTry
        requires may { MayCall self.now caller.old }
        requires begins { MayBegin call.now }
        requires spare { most_writes call.now ≤ spare_of caller.old }
        ensures stays { StaysCaller self.now caller.old caller.new }
        ensures tried { WriteSo self.now.epochs.parties call.now caller.old result caller.new }
        ensures paid { HasPaid caller.old caller.new }
    {
        match self.try_next(caller, call, pace) {
            WriteNext::End(ended) => WriteTry::Ended(ended),
            WriteNext::Retry => WriteTry::Back,
            WriteNext::TurnForLine => match self.turned(rt, caller, pace) {
                Some(_) => WriteTry::Back,
                None => WriteTry::Ended(Ended::Cut),
            },
            WriteNext::TurnForNode => match self.turned(rt, caller, pace) {
                Some(turned) => WriteTry::NoRoom {
                    none_free: turned.none_free,
                },
                None => WriteTry::Ended(Ended::Cut),
            },
        }
    }

    /// One try of a put or a delete, and what comes behind it.
    fn try_next<G: Gate>(
        &self,
        caller: &mut Caller,
        call: &CoreCall,
        pace: &mut Pace<'_, G>,
    ) -> WriteNext
        requires may { MayCall self.now caller.old }
        requires begins { MayBegin call.now }
        requires spare { most_writes call.now ≤ spare_of caller.old }
        ensures stays { StaysCaller self.now caller.old caller.new }
        ensures next { NextSo call.now caller.old result caller.new }
        ensures paid { HasPaid caller.old caller.new }
    {
        let tried = self.try_at_pace(caller, call, pace);
        next_of(tried)
    }

    /// A turn within a call, unless it was cut off.
    fn turned<R: Wait, G: Gate>(
        &self,
        rt: &R,
        caller: &mut Caller,
        pace: &mut Pace<'_, G>,
    ) -> Option<Turned>
        requires caller { IsCallerOf self.now caller.old }
        requires rests { IsAtRest caller.old }
        ensures stays { StaysCaller self.now caller.old caller.new }
        ensures same { HasMadeNone caller.old caller.new }
        ensures turned { HasTurnedWithin self.now.epochs.parties caller.old result caller.new }
        ensures paid { HasPaid caller.old caller.new }
    {
        let Ended::Done(turned) = self.turn_at_pace(rt, caller, pace) else {
            return None;
        };
        Some(turned)
    }
}

/// What comes behind a try that comes to this.
fn next_of(tried: Tried<Placed>) -> WriteNext
    ensures { result ≡ next_of tried }
{
    match tried {
        Tried::Cut => WriteNext::End(Ended::Cut),
        Tried::Answered(Once::Done(placed)) => WriteNext::End(Ended::Done(placed)),
        Tried::Answered(Once::Spent { clock }) => WriteNext::End(Ended::Spent { clock }),
        Tried::Answered(Once::Worn { .. }) => WriteNext::Retry,
        Tried::Answered(Once::Again(Again::LogFull)) => WriteNext::TurnForLine,
        Tried::Answered(Once::Again(Again::NoFree)) => WriteNext::TurnForNode,
        Tried::Answered(Once::Again(_)) => WriteNext::Retry,
    }
}
