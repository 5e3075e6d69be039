//! Calls that are made again until they take place, which may wait for a node that another caller holds.

ghost use Rattle.std.specs.Prelude.{◌≤◌};
ghost use Rattle.pac_index.specs.Cuts.{HasPaid};
ghost use Rattle.pac_index.specs.Callers.{HasMadeNone, IsCallerOf, MayCall, StaysCaller, spare_of};
ghost use Rattle.pac_index.specs.Outcomes.{GetComesTo, PartComesTo, TurnComesTo};

use crate::caller::Caller;
use crate::ended::Ended;
use crate::gate::{Gate, OpenGate, Pace};
use crate::shared::Shared;
use call_stages::Placed;
use cat_key::Name;
use index_core::CoreCall;
use node_ops::PartWords;
use std::sync::Wait;
use std::thread::yield_now;
use updater::Turned;

impl Shared {
    /// A get by one of the callers before the last, which is the updater's. It takes no lock. It is tried again while
    /// it is turned back, so it may wait for as long as others lock the node or change it under the get.
    pub fn get<R: Wait>(&self, rt: &R, caller: &mut Caller, name: &Name) -> Ended<Placed>
        requires may { MayCall self.now caller.old }
        ensures stays { StaysCaller self.now caller.old caller.new }
        ensures done { GetComesTo name.now caller.old result caller.new }
        ensures paid { HasPaid caller.old caller.new }
        ensures spare { spare_of caller.old ≤ spare_of caller.new }
    {
        self.get_at(rt, caller, *name, &OpenGate)
    }

    /// A get with the gate before its first step and between its steps, over all tries.
    pub fn get_at<R: Wait, G: Gate>(
        &self,
        rt: &R,
        caller: &mut Caller,
        name: Name,
        gate: &G,
    ) -> Ended<Placed>
        requires may { MayCall self.now caller.old }
        ensures stays { StaysCaller self.now caller.old caller.new }
        ensures done { GetComesTo name caller.old result caller.new }
        ensures paid { HasPaid caller.old caller.new }
        ensures spare { spare_of caller.old ≤ spare_of caller.new }
    {
        let mut pace = Pace::begin(gate, caller, caller.index);
        let call = CoreCall::Get { name };
        for _ in rt.forever() {
            if let Some(ended) = self.try_at_pace(caller, &call, &mut pace).ended() {
                return ended;
            }
            yield_now();
        }
        unreachable!()
    }

    /// A part of a range scan by one of the callers before the last, in the same way.
    pub fn part<R: Wait>(
        &self,
        rt: &R,
        caller: &mut Caller,
        low: &Name,
        count: u64,
    ) -> Ended<PartWords>
        requires may { MayCall self.now caller.old }
        ensures stays { StaysCaller self.now caller.old caller.new }
        ensures done { PartComesTo low.now count caller.old result caller.new }
        ensures paid { HasPaid caller.old caller.new }
        ensures spare { spare_of caller.old ≤ spare_of caller.new }
    {
        self.part_at(rt, caller, *low, count, &OpenGate)
    }

    /// A part with the gate in the same way.
    pub fn part_at<R: Wait, G: Gate>(
        &self,
        rt: &R,
        caller: &mut Caller,
        low: Name,
        count: u64,
        gate: &G,
    ) -> Ended<PartWords>
        requires may { MayCall self.now caller.old }
        ensures stays { StaysCaller self.now caller.old caller.new }
        ensures done { PartComesTo low count caller.old result caller.new }
        ensures paid { HasPaid caller.old caller.new }
        ensures spare { spare_of caller.old ≤ spare_of caller.new }
    {
        let mut pace = Pace::begin(gate, caller, caller.index);
        self.part_at_pace(rt, caller, low, count, &mut pace)
    }

    /// A part of a whole call that goes at this pace: of itself, or of a scan.
    pub(crate) fn part_at_pace<R: Wait, G: Gate>(
        &self,
        rt: &R,
        caller: &mut Caller,
        low: Name,
        count: u64,
        pace: &mut Pace<'_, G>,
    ) -> Ended<PartWords>
        requires may { MayCall self.now caller.old }
        ensures stays { StaysCaller self.now caller.old caller.new }
        ensures done { PartComesTo low count caller.old result caller.new }
        ensures paid { HasPaid caller.old caller.new }
        ensures spare { spare_of caller.old ≤ spare_of caller.new }
    {
        for _ in rt.forever() {
            if let Some(ended) = self.try_part(caller, low, count, pace).ended() {
                return ended;
            }
            yield_now();
        }
        unreachable!()
    }

    /// A turn of the updater by any caller. It is tried again while another party has the updater lock, so it may wait
    /// for as long as that one has it.
    pub fn turn<R: Wait>(&self, rt: &R, caller: &mut Caller) -> Ended<Turned>
        requires caller { IsCallerOf self.now caller.old }
        ensures stays { StaysCaller self.now caller.old caller.new }
        ensures same { HasMadeNone caller.old caller.new }
        ensures done { TurnComesTo self.now.epochs.parties caller.old result caller.new }
        ensures paid { HasPaid caller.old caller.new }
    {
        self.turn_at(rt, caller, &OpenGate)
    }

    /// A turn of the updater by any caller with the gate in the same way.
    pub fn turn_at<R: Wait, G: Gate>(&self, rt: &R, caller: &mut Caller, gate: &G) -> Ended<Turned>
        requires caller { IsCallerOf self.now caller.old }
        ensures stays { StaysCaller self.now caller.old caller.new }
        ensures same { HasMadeNone caller.old caller.new }
        ensures done { TurnComesTo self.now.epochs.parties caller.old result caller.new }
        ensures paid { HasPaid caller.old caller.new }
    {
        let mut pace = Pace::begin(gate, caller, caller.index);
        self.turn_at_pace(rt, caller, &mut pace)
    }

    /// A turn of the updater by any of the callers, of a whole call that goes at this pace.
    pub(crate) fn turn_at_pace<R: Wait, G: Gate>(
        &self,
        rt: &R,
        caller: &mut Caller,
        pace: &mut Pace<'_, G>,
    ) -> Ended<Turned>
        requires caller { IsCallerOf self.now caller.old }
        ensures stays { StaysCaller self.now caller.old caller.new }
        ensures same { HasMadeNone caller.old caller.new }
        ensures done { TurnComesTo self.now.epochs.parties caller.old result caller.new }
        ensures paid { HasPaid caller.old caller.new }
    {
        for _ in rt.forever() {
            if let Some(ended) = self.try_turn(caller, pace).ended() {
                return ended;
            }
            yield_now();
        }
        unreachable!()
    }
}
