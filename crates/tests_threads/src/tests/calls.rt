//! What a caller alone, and the updater, do on an index on threads, as plain numbers.

ghost use Rattle.std.specs.Prelude.{◌≡◌};
ghost use Rattle.pac_index.specs.Callers.{IsCallerOf, MayCall, StaysCaller};

use super::gates::Watch;
use call_stages::{Once, Placed};
use cat_key::Name;
use pac_index::index_core::CoreCall;
use pac_index::{Caller, Ended, Shared, Tried, TriedTurn};
use std::sync::Wait;

/// No history here is as long.
const LIMIT: u64 = 1 << 62;

/// In place of a number: a put that is full, and what came otherwise.
pub(crate) const FULL: u64 = 1 << 62;

const OTHER: u64 = FULL + 1;

/// The epoch to which a try of a turn advanced, and of which it is.
fn turned(shared: &Shared, updater: &mut Caller) -> u64
    requires { IsCallerOf shared.now updater.old }
    ensures { StaysCaller shared.now updater.old updater.new }
{
    match shared.turn_once(updater) {
        TriedTurn::Turned {
            epoch,
            advanced: Ok(advanced),
            ..
        } if advanced == epoch => epoch,
        _ => OTHER,
    }
}

/// The epochs of three turns, one after another.
pub(crate) fn turns(shared: &Shared, updater: &mut Caller) -> [u64; 3]
    requires { IsCallerOf shared.now updater.old }
    ensures { StaysCaller shared.now updater.old updater.new }
{
    [
        turned(shared, updater),
        turned(shared, updater),
        turned(shared, updater),
    ]
}

/// How many log lines a whole turn empties.
pub(crate) fn emptied<R: Wait>(rt: &R, shared: &Shared, updater: &mut Caller) -> u64
    requires { IsCallerOf shared.now updater.old }
    ensures { StaysCaller shared.now updater.old updater.new }
{
    match shared.turn(rt, updater) {
        Ended::Done(turned) => turned.applied,
        _ => OTHER,
    }
}

/// The place of a put of a name of one letter, or that it is full.
fn put<R: Wait>(rt: &R, shared: &Shared, caller: &mut Caller, letter: u8, gate: &Watch) -> u64
    requires { MayCall shared.now caller.old }
    ensures { StaysCaller shared.now caller.old caller.new }
{
    let (Ok(name), Ok(())) = (Name::read(&[letter]), caller.reserve(1)) else {
        return OTHER;
    };
    let call = CoreCall::Put {
        name,
        value: 7,
        limit: LIMIT,
    };
    match shared.write(rt, caller, call, gate) {
        Ended::Done(placed) => placed.place,
        Ended::Full => FULL,
        _ => OTHER,
    }
}

/// The same of puts of five names and of the first one again.
pub(crate) fn puts<R: Wait>(rt: &R, shared: &Shared, caller: &mut Caller, gate: &Watch) -> [u64; 6]
    requires { MayCall shared.now caller.old }
    ensures { StaysCaller shared.now caller.old caller.new }
{
    [
        put(rt, shared, caller, b'a', gate),
        put(rt, shared, caller, b'b', gate),
        put(rt, shared, caller, b'c', gate),
        put(rt, shared, caller, b'd', gate),
        put(rt, shared, caller, b'e', gate),
        put(rt, shared, caller, b'a', gate),
    ]
}

/// What a try told of its name, and its place.
fn told(tried: Tried<Placed>) -> [u64; 2] {
    match tried {
        Tried::Answered(Once::Done(placed)) => [placed.old.unwrap_or(0), placed.place],
        _ => [OTHER, OTHER],
    }
}

/// The place at which a node is found unchanged.
fn rechecked(shared: &Shared, caller: &mut Caller, node: u64, version: u64) -> u64
    requires { MayCall shared.now caller.old }
    ensures { StaysCaller shared.now caller.old caller.new }
{
    if node >= shared.layout().nodes() {
        return OTHER;
    }
    match shared.recheck_once(caller, node, version) {
        Tried::Answered(Once::Done(same)) => same.place,
        _ => OTHER,
    }
}

/// What a part of three names told of its low one, its place, and that of a recheck of its node behind it.
fn listed(shared: &Shared, caller: &mut Caller, name: &Name) -> [u64; 3]
    requires { MayCall shared.now caller.old }
    ensures { StaysCaller shared.now caller.old caller.new }
{
    let Tried::Answered(Once::Done(words)) = shared.part_once(caller, name, 3) else {
        return [OTHER, OTHER, OTHER];
    };
    let same = rechecked(shared, caller, words.node, words.version);
    [words.old.unwrap_or(0), words.place, same]
}

/// A put, a get, a part with its recheck, and a delete of a name by single tries; None where memory runs out.
pub(crate) fn tries(shared: &Shared, caller: &mut Caller) -> Option<[u64; 9]>
    requires { MayCall shared.now caller.old }
{
    let name = Name::read(b"a").ok()?;
    caller.reserve(1).ok()?;
    let [put, put_place] = told(shared.put_once(caller, &name, 1, LIMIT));
    let [get, get_place] = told(shared.get_once(caller, &name));
    let [part, part_place, same] = listed(shared, caller, &name);
    caller.reserve(1).ok()?;
    let [del, del_place] = told(shared.del_once(caller, &name, LIMIT));
    Some([
        put, put_place, get, get_place, part, part_place, same, del, del_place,
    ])
}
