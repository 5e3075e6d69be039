//! The worker of one caller: all its calls of a round, one after another.

ghost use Rattle.std.specs.Prelude.{◌≡◌, ◌<◌, ◌≤◌, ◌^◌, [], None, All, IfOk};
ghost use Rattle.pac_index.specs.Callers.{IsAtRest, IsCallerOf, MayCall, StaysCaller, seen_by};
ghost use Rattle.pac_index.specs.Ends.{HasOnlyRead};
ghost use Rattle.thread_rounds.specs.Played.{IsNew, IsPlayedBy, budget_of};

use crate::answering::reply_to;
use cat_history::{NoMemory, Record, RoundPlan};
use pac_index::{Caller, Gate, Shared};
use std::alloc::Global;
use std::sync::Wait;

/// A caller that has made its calls of a round, as far as its budget let it, and their records.
#[derive(Drop)]
pub(crate) struct Played {
    pub(crate) caller: Caller,
    pub(crate) records: Vec<Record>,
}

/// All calls of a caller, or the updater's turns.
pub(crate) fn plays<R: Wait, G: Gate>(
    rt: &R,
    alloc: Global,
    shared: &Shared,
    caller: Caller,
    plan: &RoundPlan,
    gate: &G,
) -> Result<Played, NoMemory>
    requires caller { IsCallerOf shared.now caller }
    requires new { IsNew caller }
    requires callers { All (λ a. a.caller < shared.now.about.layout.callers) plan.now.ops }
    requires limit { plan.now.limit ≤ 2 ^ 62 }
    ensures { IfOk result (IsPlayedBy shared.now plan.now caller) }
{
    if caller.number() < shared.layout().callers() {
        makes_calls(rt, alloc, shared, caller, plan, gate)
    } else {
        let caller = makes_turns(shared, caller, plan, gate);
        Ok(Played {
            caller,
            records: Vec::new(alloc),
        })
    }
}

/// The calls of the plan that are this caller's, within its budget. Those that it doesn't begin have a record too.
fn makes_calls<R: Wait, G: Gate>(
    rt: &R,
    alloc: Global,
    shared: &Shared,
    caller: Caller,
    plan: &RoundPlan,
    gate: &G,
) -> Result<Played, NoMemory>
    requires may { MayCall shared.now caller }
    requires new { IsNew caller }
    requires limit { plan.now.limit ≤ 2 ^ 62 }
    ensures { IfOk result (IsPlayedBy shared.now plan.now caller) }
{
    let mut caller = caller;
    let mut records = Vec::new(alloc);
    let asked = plan.ops.as_slice();
    let number = caller.number();
    caller.bound(budget_of(plan, number));
    let mut index = 0;
    for at in 0..asked.len() {
        let call = &asked[at];
        if call.caller == number {
            let reply = reply_to(rt, alloc, shared, &mut caller, &call.op, plan.limit, gate)?;
            records.push(Record {
                caller: number,
                index,
                op: call.op,
                reply,
            })?;
            index += 1;
        }
    }
    Ok(Played { caller, records })
}

/// A turn of the updater for each so many calls of the plan as it says, or none where that is 0, within its budget.
fn makes_turns<G: Gate>(shared: &Shared, caller: Caller, plan: &RoundPlan, gate: &G) -> Caller
    requires caller { IsCallerOf shared.now caller }
    requires updater { caller.number ≡ shared.now.about.layout.callers }
    requires new { IsNew caller }
    ensures stays { StaysCaller shared.now caller result }
    ensures read { HasOnlyRead (seen_by caller) (seen_by result) }
    ensures uncut { result.cut ≡ None }
    ensures rests { plan.now.crash ≡ None → IsAtRest result }
{
    let mut caller = caller;
    caller.bound(updater_budget(plan));
    let calls = plan.ops.as_slice().len() as u64;
    for turn in 0..calls.checked_div(plan.updater).unwrap_or(0) {
        shared.turn_at_gate(&mut caller, turn, gate);
    }
    caller
}

/// How many steps the caller of this number may make: none where a crash has no budget for it.
fn budget_of(plan: &RoundPlan, number: u64) -> Option<u64>
    ensures { result ≡ budget_of plan.now.crash number }
{
    let crash = plan.crash.as_ref()?;
    let budgets = crash.budgets.as_slice();
    Some(budgets.get(number as usize).copied().unwrap_or(0))
}

/// How many steps the updater may make.
fn updater_budget(plan: &RoundPlan) -> Option<u64>
    ensures { plan.now.crash ≡ None → result ≡ None }
{
    let crash = plan.crash.as_ref()?;
    Some(crash.updater_budget)
}
