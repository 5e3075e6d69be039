//! Whether each caller stopped once at a crash.

ghost use Rattle.std.specs.Prelude.{◌≡◌, ◌↔◌, IfOk, IsTrue};
ghost use Rattle.cat_history.specs.CrashRounds.{StopsOnce};
ghost use Rattle.transcript.specs.Calls.{HaveKeysApart};
ghost use Rattle.transcript.specs.Spans.{stop_of, stops_of};

use crate::NoMemory;
use crate::forms::{is_unanswered, is_unstarted};
use crate::spans::{Span, follow_each_other};
use cat_history::Record;
use std::alloc::Global;

/// A record as a span that ends at 1 where its call wasn't answered, and starts at 0 where it was begun.
fn stop_of(record: &Record) -> Span
    ensures { result ≡ stop_of «record».now }
{
    Span {
        caller: record.caller,
        index: record.index,
        start: u128::from(is_unstarted(&record.reply)),
        end: u128::from(is_unanswered(&record.reply)),
    }
}

/// The same of each record.
fn stops_told(alloc: Global, told: &[Record]) -> Result<Vec<Span>, NoMemory>
    ensures { IfOk result (λ stops. stops.items ≡ stops_of told.now) }
{
    told.iter().map(|record| stop_of(record)).collect(alloc)
}

/// Whether each caller's calls are answered ones, then at most one that was cut off, then ones that weren't begun.
///
/// It takes time in proportion to the records, and to the logarithm of how many there are.
pub(crate) fn stop_once(alloc: Global, told: &[Record]) -> Result<bool, NoMemory>
    requires { HaveKeysApart told.now }
    ensures { IfOk result (λ yes. IsTrue yes ↔ StopsOnce told.now) }
{
    Ok(follow_each_other(stops_told(alloc, told)?))
}
