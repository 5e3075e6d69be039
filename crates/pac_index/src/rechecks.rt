//! Rechecks: whether what a part of a range scan told its caller is so still.

ghost use Rattle.std.specs.Prelude.{◌≡◌, ◌≢◌, ◌<◌, Some};
ghost use Rattle.epochs.specs.Seats.{Holds};
ghost use Rattle.pac_index.specs.Kept.{IsLone, party};
ghost use Rattle.pac_index.specs.Budgets.{Pays};
ghost use Rattle.pac_index.specs.Cuts.{HasPaid, IsStoppedTry};
ghost use Rattle.pac_index.specs.Calls.{OnTried};
ghost use Rattle.pac_index.specs.Callers.{IsAtRest, MayCall, StaysCaller};
ghost use Rattle.pac_index.specs.CutRechecks.{HasLookedOnce, IsCutRecheck};
ghost use Rattle.pac_index.specs.Pinned.{Pinned};
ghost use Rattle.pac_index.specs.Rechecked.{Rechecked};

use crate::budget::{pay, pay_one};
use crate::caller::Caller;
use crate::calls::turned_back;
use crate::rule::{ChecksNode, FirstRecheckStep, LastRecheckStep, Members};
use crate::shared::Shared;
use crate::tried::Tried;
use atomic_table::Seat;
use epochs::{EpochSeat, Pin};
use node_ops::{Recheck, Same};
use pm_words::{Machine, Turn};
use std::marker::Brand;

impl Shared {
    /// One try of a recheck by one of the callers before the last, with a pin as a put has one: whether the version
    /// word of a node is still the one that a part of it told. It is answered `Same` exactly where it is, loaded after
    /// the clock, which gives the place, and else `Moved`, with the version handed in and the word found. After `Same`
    /// each part that this very caller was answered from this node at this version lists, at every place from its own
    /// to this one, the first names of the map from its low one on, up to its high one, with their numbers: as many as
    /// it was to list at most, and all of them where those are no fewer than a node has slots. Of a node and a version
    /// word of no such part it says nothing about names. It counts as no call: the index of the next one stays.
    pub fn recheck_once(&self, caller: &mut Caller, node: u64, version: u64) -> Tried<Same>
        requires may { MayCall self.now caller.old }
        requires node { node < self.now.about.layout.nodes }
        ensures stays { StaysCaller self.now caller.old caller.new }
        ensures same { (caller.new.index ≡ caller.old.index) × (caller.new.kept ≡ caller.old.kept) }
        ensures rests { OnTried result (λ answer. IsAtRest caller.new) (Unit {0}) }
        ensures tried { OnTried result (λ answer. Pinned (Rechecked node version) caller.old answer caller.new)
            (IsCutRecheck caller.old caller.new) }
        ensures paid { HasPaid caller.old caller.new }
        ensures stopped { IsStoppedTry caller.old result caller.new }
    {
        if caller.is_spent() {
            return Tried::Cut;
        }
        let pin = match self.epochs.pin_once(&mut caller.pins) {
            Ok(pin) => pin,
            Err(moved) => return turned_back(moved),
        };
        let tried = self.run_recheck::<Brand>(
            &mut caller.seat,
            caller.number,
            node,
            version,
            &caller.pins,
            &pin,
            &mut caller.left,
        );
        self.epochs.unpin(&mut caller.pins, pin);
        tried
    }

    /// A recheck by the seat's party, from its first step to its answer, or until it has no step left before its last
    /// one. Its pin is held meanwhile.
    fn run_recheck<N: ChecksNode>(
        &self,
        seat: &mut Seat<(), Members>,
        number: u64,
        node: u64,
        version: u64,
        pins: &EpochSeat,
        pin: &Pin,
        left: &mut Option<u64>,
    ) -> Tried<Same>
        requires pinned { Holds pins.now pin.now }
        requires table { seat.old.table_id ≡ self.now.table.shared.table_id }
        requires chosen { node ≡ N.node }
        requires lone { IsLone seat.old.me }
        requires about { (party seat.old.me).about ≡ self.now.about }
        requires number { ((party seat.old.me).state.caller ≡ number) × (number < self.now.about.layout.callers) }
        requires node { node < self.now.about.layout.nodes }
        requires left { left.old ≢ Some 0 }
        ensures seat { (seat.new.table_id ≡ seat.old.table_id) × (seat.new.id ≡ seat.old.id) }
        ensures lone { IsLone seat.new.me }
        ensures answered { OnTried result (λ answer. Rechecked node version (party seat.old.me) answer
            (party seat.new.me)) ((left.new ≡ Some 0) × HasLookedOnce (party seat.old.me) (party seat.new.me)) }
        ensures paid { Pays left.old left.new (party seat.old.me).taken (party seat.new.me).taken }
    {
        let view = self.view(number);
        let first = Recheck::new(view, node, version);
        let dates = first.action();
        pay_one(left);
        let clock = self.act::<FirstRecheckStep>(seat, dates);
        let Turn::Go(last) = first.resume(clock) else {
            unreachable!()
        };
        if !pay(left) {
            return Tried::Cut;
        }
        let checks = last.action();
        let found = self.act::<LastRecheckStep<N>>(seat, checks);
        let Turn::Done(answer) = last.resume(found) else {
            unreachable!()
        };
        Tried::Answered(answer)
    }
}
