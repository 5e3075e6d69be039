//! One call of a round, made until it is answered or cut off.

ghost use Rattle.std.specs.Prelude.{◌≡◌, ◌≢◌, ◌≤◌, ◌^◌, IfOk, Some};
ghost use Rattle.cat_history.specs.Records.{as_op};
ghost use Rattle.cat_history.specs.declared.op.Op.TheVariants as op;
ghost use Rattle.cat_history.specs.declared.record.Reply.TheVariants as reply;
ghost use Rattle.pac_index.specs.index_core.specs.CoreCalls.{MayBegin, limit_of, most_writes, op_of};
ghost use Rattle.pac_index.specs.Budgets.{place_in};
ghost use Rattle.pac_index.specs.Callers.{MayCall, StaysCaller, seen_by};
ghost use Rattle.pac_index.specs.Cuts.{HasPaid};
ghost use Rattle.caller_rounds.specs.Standing.{HasReportNumbers};
ghost use Rattle.thread_rounds.specs.Made.{AnsweredOrCut, HasGone, IsMade, reply_told, write_mark};

use call_stages::Placed;
use cat_history::{CutMark, NoMemory, Op, Reply};
use cat_key::Name;
use pac_index::index_core::CoreCall;
use pac_index::{Caller, CutCall, Ended, Gate, Scanned, Shared};
use std::alloc::Global;
use std::sync::Wait;

/// What a caller's next call of a round comes to: one that has no step left doesn't begin it.
pub(crate) fn reply_to<R: Wait, G: Gate>(
    rt: &R,
    alloc: Global,
    shared: &Shared,
    caller: &mut Caller,
    op: &Op,
    limit: u64,
    gate: &G,
) -> Result<Reply, NoMemory>
    requires may { MayCall shared.now caller.old }
    requires limit { limit ≤ 2 ^ 62 }
    ensures stays { StaysCaller shared.now caller.old caller.new }
    ensures paid { IfOk result (λ _. HasPaid caller.old caller.new) }
    ensures gone { IfOk result (λ reply. HasGone limit op.now reply caller.old caller.new) }
    ensures told { IfOk result HasReportNumbers }
{
    if caller.is_spent() {
        return Ok(Reply::Unstarted);
    }
    answer(rt, alloc, shared, caller, op, limit, gate)
}

/// One call by a caller that has a step left, with the gate before its first step and between its steps. It may wait
/// for a node that another caller holds.
fn answer<R: Wait, G: Gate>(
    rt: &R,
    alloc: Global,
    shared: &Shared,
    caller: &mut Caller,
    op: &Op,
    limit: u64,
    gate: &G,
) -> Result<Reply, NoMemory>
    requires may { MayCall shared.now caller.old }
    requires steps { caller.old.left ≢ Some 0 }
    requires limit { limit ≤ 2 ^ 62 }
    ensures stays { StaysCaller shared.now caller.old caller.new }
    ensures paid { IfOk result (λ _. HasPaid caller.old caller.new) }
    ensures made { IfOk result (λ reply. IsMade limit caller.old.number caller.old.index op.now reply
        (seen_by caller.old) (seen_by caller.new) caller.new.cut) }
    ensures ends { IfOk result (λ reply. AnsweredOrCut reply caller.old caller.new) }
    ensures told { IfOk result HasReportNumbers }
{
    match *op {
        Op::Put { name, value } => {
            write_reply(
                rt,
                shared,
                caller,
                CoreCall::Put { name, value, limit },
                gate,
            )
        }
        Op::Get { name } => Ok(get_reply(rt, shared, caller, name, limit, gate)),
        Op::Del { name } => write_reply(rt, shared, caller, CoreCall::Del { name, limit }, gate),
        Op::Scan { from, count } => {
            scan_reply(rt, alloc, shared, caller, from, count, limit, gate)
        }
    }
}

/// A put or a delete, for which room is made first.
fn write_reply<R: Wait, G: Gate>(
    rt: &R,
    shared: &Shared,
    caller: &mut Caller,
    call: CoreCall,
    gate: &G,
) -> Result<Reply, NoMemory>
    requires may { MayCall shared.now caller.old }
    requires steps { caller.old.left ≢ Some 0 }
    requires begins { MayBegin call }
    requires writes { most_writes call ≡ 1 }
    ensures stays { StaysCaller shared.now caller.old caller.new }
    ensures paid { IfOk result (λ _. HasPaid caller.old caller.new) }
    ensures made { IfOk result (λ reply. (limit : _) → limit_of call ≡ Some limit → IsMade limit caller.old.number
        caller.old.index (as_op (op_of call)) reply (seen_by caller.old) (seen_by caller.new) caller.new.cut) }
    ensures ends { IfOk result (λ reply. AnsweredOrCut reply caller.old caller.new) }
    ensures told { IfOk result HasReportNumbers }
{
    caller.reserve(1)?;
    let ended = shared.write(rt, caller, call, gate);
    let mark = mark_of(caller.cut());
    Ok(told(ended, mark))
}

/// A get.
fn get_reply<R: Wait, G: Gate>(
    rt: &R,
    shared: &Shared,
    caller: &mut Caller,
    name: Name,
    limit: u64,
    gate: &G,
) -> Reply
    requires may { MayCall shared.now caller.old }
    requires steps { caller.old.left ≢ Some 0 }
    ensures stays { StaysCaller shared.now caller.old caller.new }
    ensures paid { HasPaid caller.old caller.new }
    ensures made { IsMade limit caller.old.number caller.old.index (op.Get name) result (seen_by caller.old)
        (seen_by caller.new) caller.new.cut }
    ensures ends { AnsweredOrCut result caller.old caller.new }
    ensures told { HasReportNumbers result }
{
    let ended = shared.get_at(rt, caller, name, gate);
    told(ended, CutMark::Read)
}

/// A range scan. One that is cut off tells the parts that were answered.
fn scan_reply<R: Wait, G: Gate>(
    rt: &R,
    alloc: Global,
    shared: &Shared,
    caller: &mut Caller,
    from: Name,
    count: u64,
    limit: u64,
    gate: &G,
) -> Result<Reply, NoMemory>
    requires may { MayCall shared.now caller.old }
    requires steps { caller.old.left ≢ Some 0 }
    ensures stays { StaysCaller shared.now caller.old caller.new }
    ensures paid { IfOk result (λ _. HasPaid caller.old caller.new) }
    ensures made { IfOk result (λ reply. IsMade limit caller.old.number caller.old.index (op.Scan from count) reply
        (seen_by caller.old) (seen_by caller.new) caller.new.cut) }
    ensures ends { IfOk result (λ reply. AnsweredOrCut reply caller.old caller.new) }
    ensures told { IfOk result HasReportNumbers }
{
    match shared.scan_at(rt, alloc, caller, from, count, gate)? {
        Scanned::Done(parts) => Ok(Reply::Parts { parts, cut: false }),
        Scanned::Cut(parts) => Ok(Reply::Parts { parts, cut: true }),
    }
}

/// The mark of a write that was cut off, of which its caller tells this.
fn mark_of(cut: Option<CutCall>) -> CutMark
    ensures mark { result ≡ write_mark (place_in cut) }
    ensures numbers { HasReportNumbers (reply.Cut result) }
{
    match cut {
        Some(
            CutCall {
                place: Some(place),
                ..
            },
        ) => CutMark::At { place },
        _ => CutMark::Open,
    }
}

/// What is told of a call on one name that ended so, where it is marked so if it was cut off.
fn told(ended: Ended<Placed>, mark: CutMark) -> Reply
    requires mark { HasReportNumbers (reply.Cut mark) }
    ensures reply { result ≡ reply_told mark ended }
    ensures numbers { HasReportNumbers result }
{
    match ended {
        Ended::Done(placed) => Reply::Old {
            old: placed.old,
            place: placed.place,
        },
        Ended::Full => Reply::Full,
        Ended::Spent { clock } => Reply::Spent { clock },
        Ended::Cut => Reply::Cut { mark },
    }
}
