//! Callers on threads of their own.

ghost use Rattle.std.specs.Prelude.{◌≡◌, ◌<◌, [], length, IfOk};
ghost use Rattle.index_core.specs.Lone.{IsQuiet};
ghost use Rattle.pac_index.specs.Callers.{HasCallers, IsCallerOf, MayCall, StaysCaller};

use crate::calls::{LIMIT, Mix, is_put, name_of};
use call_stages::Once;
use crossbeam_utils::atomic::AtomicCell;
use index_core::Core;
use pac_index::{Caller, Shared, Tried, have_steps};
use pm_words::NoMemory;
use std::alloc::Global;
use std::thread::{Threads, map_vec, yield_now};

/// How often a call is made again at most, while it is turned back.
const TRIES: u64 = 10_000_000;

/// Each of the first `active` callers of an index makes so many calls on a thread of its own, all at once. Returns the
/// core in which they meet. `turned_back` is raised by how many tries of theirs had to be made again.
pub fn meet<R: Threads + Sync>(
    rt: &R,
    alloc: Global,
    core: Core,
    active: u64,
    calls: u64,
    mix: Mix,
    turned_back: &AtomicCell<u64>,
) -> Result<Core, NoMemory>
    requires quiet { IsQuiet core }
    requires start { core.history ≡ [] }
{
    let (shared, callers) = Shared::new(alloc, core)?;
    let callers = all_play(rt, &shared, callers, active, calls, mix, turned_back)?;
    // No caller has a bound on its steps, so each has one left.
    if !have_steps(callers.as_slice()) {
        return Err(NoMemory);
    }
    shared.close(alloc, callers)
}

/// All callers at once.
fn all_play<R: Threads + Sync>(
    rt: &R,
    shared: &Shared,
    callers: Vec<Caller>,
    active: u64,
    calls: u64,
    mix: Mix,
    turned_back: &AtomicCell<u64>,
) -> Result<Vec<Caller>, NoMemory>
    requires { HasCallers shared.now (length callers.items) callers.items }
    ensures { IfOk result (λ done. HasCallers shared.now (length callers.items) done.items) }
{
    let done = map_vec(
        rt,
        callers,
        &|caller: Caller| -> Caller
            requires { IsCallerOf shared.now caller }
            ensures { StaysCaller shared.entry.now caller result }
        { plays(shared, caller, active, calls, mix, turned_back) },
    )?;
    Ok(done)
}

/// All calls of a caller, or those before the first that isn't answered. Only the first `active` ones have any.
fn plays(
    shared: &Shared,
    caller: Caller,
    active: u64,
    calls: u64,
    mix: Mix,
    turned_back: &AtomicCell<u64>,
) -> Caller
    requires { IsCallerOf shared.now caller }
    ensures { StaysCaller shared.now caller result }
{
    let mut caller = caller;
    if caller.number() >= shared.layout().callers().min(active) {
        return caller;
    }
    // Counted here, so that the callers share one word more at their end alone.
    let mut made_again: u64 = 0;
    for number in 0..calls {
        let Some(times) = takes_place(shared, &mut caller, mix, number) else {
            break;
        };
        made_again = made_again.saturating_add(times);
    }
    turned_back.fetch_add(made_again);
    caller
}

/// Makes the call of this number until it takes place. Returns how many tries were turned back before; None where it
/// takes no place.
fn takes_place(shared: &Shared, caller: &mut Caller, mix: Mix, number: u64) -> Option<u64>
    requires { MayCall shared.now caller.old }
    ensures { StaysCaller shared.now caller.old caller.new }
{
    for tries in 0..TRIES {
        if once(shared, caller, mix, number)? {
            return Some(tries);
        }
        yield_now();
    }
    None
}

/// One try, and whether the call took place; None where there is no memory for it.
fn once(shared: &Shared, caller: &mut Caller, mix: Mix, number: u64) -> Option<bool>
    requires { MayCall shared.now caller.old }
    ensures { StaysCaller shared.now caller.old caller.new }
{
    caller.reserve(1).ok()?;
    let name = name_of(mix, caller.number(), number)?;
    let tried = if is_put(mix, number) {
        shared.put_once(caller, &name, number, LIMIT)
    } else {
        shared.get_once(caller, &name)
    };
    Some(matches!(tried, Tried::Answered(Once::Done(_))))
}
