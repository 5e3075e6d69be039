//! What a round comes to in numbers.

ghost use Rattle.std.specs.Prelude.{◌≡◌, ◌≤◌, ◌*◌, All, count_by, length, sum_by};
ghost use Rattle.std.specs.FinMap.{empty};
ghost use Rattle.cat_history.specs.Maps.{map_of};
ghost use Rattle.cat_history.specs.Replays.{pairs_of};
ghost use Rattle.core_rounds.specs.Rounds.{IsRoundTo};
ghost use Rattle.core_rounds.specs.Summaries.{IsWithin, is_del, is_full, is_put, summary_of};

use cat_history::{CallerOp, Op, Record, Reply, RoundPlan};
use cat_key::Pair;
use cat_text::{RoundReport, Summary};

/// The summary of a round from the empty map, whose end has these pairs, in rising order of names.
pub fn summarize(plan: &RoundPlan, report: &RoundReport, pairs: &[Pair]) -> Summary
    requires round { IsRoundTo empty plan.now report.now (map_of pairs.now) }
    requires pairs { pairs.now ≡ pairs_of (map_of pairs.now) }
    requires within { All (λ a. IsWithin 100000 a.op) plan.now.ops }
    requires few { length plan.now.ops ≤ 100000 }
    ensures { result ≡ summary_of plan.now.ops report.now.records (map_of pairs.now) }
{
    let asked = plan.ops.as_slice();
    Summary {
        calls: asked.len() as u64,
        puts: puts_in(asked),
        dels: dels_in(asked),
        names: report.names,
        sum: sum_of(pairs),
        full: full_in(report.records.as_slice()),
    }
}

fn puts_in(asked: &[CallerOp]) -> u64
    ensures { result ≡ count_by (λ a. is_put a.op) asked.now }
{
    asked
        .iter()
        .filter(|call| matches!(call.op, Op::Put { .. }))
        .count() as u64
}

fn dels_in(asked: &[CallerOp]) -> u64
    ensures { result ≡ count_by (λ a. is_del a.op) asked.now }
{
    asked
        .iter()
        .filter(|call| matches!(call.op, Op::Del { .. }))
        .count() as u64
}

fn full_in(records: &[Record]) -> u64
    ensures { result ≡ count_by (λ r. is_full r.reply) records.now }
{
    records
        .iter()
        .filter(|record| matches!(record.reply, Reply::Full))
        .count() as u64
}

/// The sum of the numbers of pairs, which is small.
fn sum_of(pairs: &[Pair]) -> u64
    requires { sum_by (λ pair. pair.value) pairs.now ≤ 100000 * 100000 }
    ensures { result ≡ sum_by (λ pair. pair.value) pairs.now }
{
    let mut sum = 0;
    for pair in pairs {
        sum += pair.value;
    }
    sum
}
