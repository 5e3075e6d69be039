//! The judge.

ghost use Rattle.std.specs.Prelude.{◌≡◌, ℕ, IfOk, IsErrOf, Ok, Err};
ghost use Rattle.cat_history.specs.Maps.{Map, map_of};
ghost use Rattle.cat_history.specs.Records.{numbered};
ghost use Rattle.cat_history.specs.Replays.{pairs_of};
ghost use Rattle.cat_history.specs.Rounds.{RecordsEachCall};
ghost use Rattle.transcript.specs.Calls.{HaveKeysApart};
ghost use Rattle.transcript.specs.Legality.{IsAnswer, IsEndJudgement, IsJudgement, IsLegal};
ghost use Rattle.transcript.specs.Rules.{AreCounted, IsFirstBroken, case_of};
ghost use Rattle.transcript.specs.declared.asking.Judged.TheVariants as Judged;

use crate::asking::{Asked, Judged, RoundEnd};
use crate::calls::each_call_is_told;
use crate::ends::{ends_as_said, names_at_end};
use crate::limit::limit_is_kept;
use crate::looks::numbers_agree;
use crate::order::callers_keep_order;
use crate::places::writes_by_place;
use crate::scans::scans_agree;
use cat_history::{CallerOp, Pairs, Record, Records, Write, pairs_in};
use cat_key::Pair;
use std::alloc::Global;

/// Says whether the records of a round are legal, for the map that the round began with, the calls that were asked, and
/// what is said of its end. Who wrote them doesn't matter, nor in which order they stand.
///
/// `Ok` gives the map at the round's end, in rising order of names; it comes exactly where the round is a legal one.
/// `Illegal` tells the first of the eight rules that the round breaks, exactly where it isn't:
///
/// 1. there is one record for each call, with its caller, index and op, and no other record;
/// 2. the places of the writes that have one are 0, 1, 2 and so on, each once, as many as the end says;
/// 3. a call on one name that was told a number was told that of its name after as many writes as its place says;
/// 4. the parts of a scan follow one another, and each lists what stands in its range at its place;
/// 5. no call ends after the last write, and a caller's calls took effect in their order;
/// 6. who was told that the limit is reached saw it so, and no more writes went past it than callers may make;
/// 7. each reply is of a form that its call has; where the callers were joined, each call was answered, and where a
///    crash ended the round, each caller stopped once, within its budget, and the marks of writes that were cut off
///    agree with the map that was left;
/// 8. the map at the end has as many names as the end says.
///
/// `NoMemory` may come instead of each of them. In the base a name that stands twice has its first number. It takes
/// time in proportion to the base, the calls and the records with what they list, and to the logarithm of how many
/// there are.
pub fn judge(
    alloc: Global,
    base: Pairs,
    asked: &Asked,
    told: &Records,
    end: &RoundEnd,
) -> Result<Pairs, Judged>
    ensures legal { IfOk result (λ pairs. IsLegal (case_of base asked.now told.now end.now) (map_of pairs)) }
    ensures sorted { IfOk result (λ pairs. pairs ≡ pairs_of (map_of pairs)) }
    ensures accepted { (m : Map) → IsLegal (case_of base asked.now told.now end.now) m
        → IsAnswer result (Ok (pairs_of m)) }

    // Each rule has its one cause.
    ensures illegal { (rule : ℕ) → IsErrOf result (Judged.Illegal rule)
        → IsFirstBroken (case_of base asked.now told.now end.now) rule }
    ensures refused { (rule : ℕ) → IsFirstBroken (case_of base asked.now told.now end.now) rule
        → IsAnswer result (Err (Judged.Illegal rule)) }
{
    judge_lists(
        alloc,
        base.as_slice(),
        asked.as_slice(),
        told.as_slice(),
        end,
    )
}

/// The same, of lists.
fn judge_lists(
    alloc: Global,
    base: &[Pair],
    asked: &[CallerOp],
    told: &[Record],
    end: &RoundEnd,
) -> Result<Pairs, Judged>
    ensures { IsJudgement (case_of base.now asked.now told.now end.now) result }
{
    if !each_call_is_told(alloc, asked, told)? {
        return Err(Judged::Illegal { rule: 1 });
    }
    let Some(writes) = writes_by_place(alloc, told, end.writes)? else {
        return Err(Judged::Illegal { rule: 2 });
    };
    judge_writes(alloc, base, asked, told, &writes, end)
}

/// The same where each call is told and the writes by place are these.
fn judge_writes(
    alloc: Global,
    base: &[Pair],
    asked: &[CallerOp],
    told: &[Record],
    writes: &[Write],
    end: &RoundEnd,
) -> Result<Pairs, Judged>
    requires each_call { RecordsEachCall (numbered asked.now) told.now }
    requires writes { AreCounted told.now end.now.writes writes.now }
    ensures { IsJudgement (case_of base.now asked.now told.now end.now) result }
{
    if !numbers_agree(alloc, base, writes, told)? {
        return Err(Judged::Illegal { rule: 3 });
    }
    if !scans_agree(alloc, base, writes, told)? {
        return Err(Judged::Illegal { rule: 4 });
    }
    if !callers_keep_order(alloc, told, writes)? {
        return Err(Judged::Illegal { rule: 5 });
    }
    if !limit_is_kept(alloc, asked, told, writes, end.limit)? {
        return Err(Judged::Illegal { rule: 6 });
    }
    judge_end(alloc, base, told, writes, end)
}

/// The same by the last two rules, where the writes by place are these.
fn judge_end(
    alloc: Global,
    base: &[Pair],
    told: &[Record],
    writes: &[Write],
    end: &RoundEnd,
) -> Result<Pairs, Judged>
    requires { HaveKeysApart told.now }
    ensures { IsEndJudgement (map_of base.now) told.now end.now writes.now result }
{
    let names = names_at_end(alloc, base, writes, told)?;
    if !ends_as_said(alloc, &names, told, end)? {
        return Err(Judged::Illegal { rule: 7 });
    }
    if names.len() as u64 != end.names {
        return Err(Judged::Illegal { rule: 8 });
    }
    Ok(pairs_in(alloc, names)?)
}
