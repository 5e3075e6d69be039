//! Whether each caller's calls took effect in their order, and none after the last write.

ghost use Rattle.std.specs.Prelude.{◌≡◌, ◌↔◌, ◌≤◌, All, IfOk, IsTrue, length, option_map};
ghost use Rattle.cat_history.specs.Records.{interval_asked, interval_told, parts_interval};
ghost use Rattle.cat_history.specs.declared.record.Record.{Record};
ghost use Rattle.transcript.specs.Calls.{HaveKeysApart};
ghost use Rattle.transcript.specs.Rules.{CallersKeepOrder};
ghost use Rattle.transcript.specs.Spans.{as_interval, span_of, spans_of};
ghost use Rattle.transcript.specs.declared.spans.Span.{Span};

use crate::NoMemory;
use crate::spans::{Span, Taken, follow_each_other};
use cat_history::{CutMark, Op, Record, Reply, ScanPart, Write};
use std::alloc::Global;

/// What a call took effect between, whose place is this: a write takes one place, a get none.
fn taken_at(op: &Op, place: u64) -> Taken
    ensures { as_interval result ≡ interval_asked op.now place }
{
    let start = u128::from(place);
    let end = match op {
        Op::Put { .. } | Op::Del { .. } => start + 1,
        Op::Get { .. } | Op::Scan { .. } => start,
    };
    Taken { start, end }
}

/// The same of a scan: from its first part to its last.
fn taken_by(parts: &[ScanPart]) -> Option<Taken>
    ensures { option_map as_interval result ≡ parts_interval parts.now }
{
    let first = parts.first()?.place;
    let last = parts.last()?.place;
    Some(Taken {
        start: u128::from(first),
        end: u128::from(last),
    })
}

/// The same of a call that was answered so, if it took effect.
fn taken(op: &Op, reply: &Reply) -> Option<Taken>
    ensures { option_map as_interval result ≡ interval_told op.now reply.now }
{
    match reply {
        Reply::Old { place, .. }
        | Reply::Cut {
            mark: CutMark::At { place },
        } => Some(taken_at(op, *place)),
        Reply::Parts { parts, .. } => taken_by(parts.as_slice()),
        Reply::Spent { clock } => Some(Taken {
            start: u128::from(*clock),
            end: u128::from(*clock),
        }),
        Reply::Full | Reply::Cut { .. } | Reply::Unstarted => None,
    }
}

/// What a caller did with a call, if it took effect.
fn span_of(record: &Record) -> Option<Span>
    ensures { result ≡ span_of «record».now }
{
    let Taken { start, end } = taken(&record.op, &record.reply)?;
    Some(Span {
        caller: record.caller,
        index: record.index,
        start,
        end,
    })
}

/// What callers did with calls that took effect, in the order of the records.
fn spans_told(alloc: Global, told: &[Record]) -> Result<Vec<Span>, NoMemory>
    ensures { IfOk result (λ spans. spans.items ≡ spans_of told.now) }
{
    told.iter()
        .filter_map(|record| span_of(record))
        .collect(alloc)
}

/// Whether none of the spans ends after so many writes.
fn end_within(spans: &[Span], count: usize) -> bool
    ensures { IsTrue result ↔ All (λ (span : Span). span.end ≤ count) spans.now }
{
    spans.iter().all(|span| span.end <= count as u128)
}

/// Whether no call ends after the last write, and each caller's calls took effect in their order.
///
/// It takes time in proportion to the records, and to the logarithm of how many there are.
pub(crate) fn callers_keep_order(
    alloc: Global,
    told: &[Record],
    writes: &[Write],
) -> Result<bool, NoMemory>
    requires { HaveKeysApart told.now }
    ensures { IfOk result (λ yes. IsTrue yes ↔ CallersKeepOrder told.now writes.now) }
{
    let spans = spans_told(alloc, told)?;
    if !end_within(&spans, writes.len()) {
        return Ok(false);
    }
    Ok(follow_each_other(spans))
}
