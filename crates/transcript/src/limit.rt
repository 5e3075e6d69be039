//! Whether the limit on writes was kept.

ghost use Rattle.std.specs.Prelude.{◌≡◌, ◌↔◌, All, IfOk, IsTrue, map};
ghost use Rattle.cat_history.specs.Callers.{PlacesKeepLimit, callers_among};
ghost use Rattle.cat_history.specs.Records.{numbered};
ghost use Rattle.cat_history.specs.declared.op.CallerOp.{CallerOp};
ghost use Rattle.cat_history.specs.declared.record.Record.{Record};
ghost use Rattle.transcript.specs.Rules.{LimitIsKept, ReachesLimit};

use crate::NoMemory;
use cat_history::{CallerOp, Record, Reply, Write};
use std::alloc::Global;
use std::collections::BTreeSet;

/// Whether a call that was told that the limit is reached saw at least as many writes.
fn reaches(limit: u64, reply: &Reply) -> bool
    ensures { IsTrue result ↔ ReachesLimit limit reply.now }
{
    match reply {
        Reply::Spent { clock } => limit <= *clock,
        _ => true,
    }
}

/// The same of all calls.
fn all_reach(limit: u64, told: &[Record]) -> bool
    ensures { IsTrue result ↔ All (λ (r : Record). ReachesLimit limit r.reply) told.now }
{
    told.iter().all(|record| reaches(limit, &record.reply))
}

/// How many different callers have calls.
fn callers_in(alloc: Global, asked: &[CallerOp]) -> Result<usize, NoMemory>
    ensures { IfOk result (λ count. count ≡ callers_among (map (λ (a : CallerOp). a.caller) asked.now)) }
{
    let mut callers = BTreeSet::new(alloc);
    for call in asked {
        callers.insert(call.caller)?;
    }
    Ok(callers.len())
}

/// Whether each place of a write is below the limit plus the number of callers, minus one.
fn in_time(
    alloc: Global,
    asked: &[CallerOp],
    writes: &[Write],
    limit: u64,
) -> Result<bool, NoMemory>
    ensures { IfOk result (λ yes. IsTrue yes
        ↔ PlacesKeepLimit limit (map (λ (a : CallerOp). a.caller) asked.now) writes.now) }
{
    let most = u128::from(limit) + callers_in(alloc, asked)? as u128;
    Ok(writes.is_empty() || (writes.len() as u128) < most)
}

/// Whether who was told that the limit is reached saw it so, and past it there is at most one write for each caller
/// that has calls but one.
///
/// It takes time in proportion to the calls and records, and to the logarithm of how many callers there are.
pub(crate) fn limit_is_kept(
    alloc: Global,
    asked: &[CallerOp],
    told: &[Record],
    writes: &[Write],
    limit: u64,
) -> Result<bool, NoMemory>
    ensures { IfOk result (λ yes. IsTrue yes ↔ LimitIsKept limit (numbered asked.now) told.now writes.now) }
{
    if !all_reach(limit, told) {
        return Ok(false);
    }
    in_time(alloc, asked, writes, limit)
}
