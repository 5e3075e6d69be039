//! The writes of a round by their places.

ghost use Rattle.std.specs.Prelude.{◌≡◌, ◌↔◌, ℕ, ◌<◌, List, IfOk, IsTrue, length, map, slice_index_or};
ghost use Rattle.std.specs.List.Sorted.{IsPermutation, IsSortedByKey};
ghost use Rattle.std.specs.Option.{MatchOption};
ghost use Rattle.std.specs.Ordering.{nat_cmp};
ghost use Rattle.cat_history.specs.Records.{place_of, placed_write, placed_writes};
ghost use Rattle.cat_history.specs.declared.op.Write.{Write};
ghost use Rattle.transcript.specs.Rules.{AreCounted};

use crate::NoMemory;
use cat_history::{Change, CutMark, Op, Record, Reply, Write};
use std::alloc::Global;

/// The place that a reply tells of a call on one name.
fn place_of(reply: &Reply) -> Option<u64>
    ensures { result ≡ place_of reply.now }
{
    match reply {
        Reply::Old { place, .. }
        | Reply::Cut {
            mark: CutMark::At { place },
        } => Some(*place),
        _ => None,
    }
}

/// The write of a record beside its place, where it has one.
fn placed_write(record: &Record) -> Option<(u64, Write)>
    ensures { result ≡ placed_write «record».now }
{
    let place = place_of(&record.reply)?;
    let change = match record.op {
        Op::Put { name, value } => Change::Put { name, value },
        Op::Del { name } => Change::Del { name },
        Op::Get { .. } | Op::Scan { .. } => return None,
    };
    Some((
        place,
        Write {
            caller: record.caller,
            index: record.index,
            change,
        },
    ))
}

/// The writes that have a place, each beside it, in the order of the records.
fn placed_writes(alloc: Global, told: &[Record]) -> Result<Vec<(u64, Write)>, NoMemory>
    ensures { IfOk result (λ placed. placed.items ≡ placed_writes told.now) }
{
    told.iter()
        .filter_map(|record| placed_write(record))
        .collect(alloc)
}

/// The writes in the order of their places.
fn by_place(placed: Vec<(u64, Write)>) -> Vec<(u64, Write)>
    ensures same { IsPermutation placed.items result.items }
    ensures rising { IsSortedByKey (λ (write : ℕ × Write). write.0) nat_cmp result.items }
{
    let mut sorted = placed;
    sorted.sort_unstable_by_key(|write| write.0);
    sorted
}

/// Whether the places are 0, 1, 2 and so on.
fn stand_in_place(placed: &[(u64, Write)]) -> bool
    ensures { IsTrue result ↔ ((at : ℕ) (d : ℕ × Write) → at < length placed.now
        → (slice_index_or placed.now at d).0 ≡ at) }
{
    for at in 0..placed.len() {
        if placed[at].0 != at as u64 {
            return false;
        }
    }
    true
}

/// The writes without their places.
fn writes_in(alloc: Global, placed: &[(u64, Write)]) -> Result<Vec<Write>, NoMemory>
    ensures { IfOk result (λ writes. writes.items ≡ map (λ (write : ℕ × Write). write.1) placed.now) }
{
    placed.iter().map(|write| write.1).collect(alloc)
}

/// The writes by place, where their places are 0, 1, 2 and so on, each once, as many as `count`.
///
/// It takes time in proportion to the records, and to the logarithm of how many there are.
pub(crate) fn writes_by_place(
    alloc: Global,
    told: &[Record],
    count: u64,
) -> Result<Option<Vec<Write>>, NoMemory>
    ensures { IfOk result (λ found. MatchOption found ((writes : List Write) → AreCounted told.now count writes → ⊥)
        (λ writes. AreCounted told.now count writes.items)) }
{
    let placed = by_place(placed_writes(alloc, told)?);
    if placed.len() as u64 != count || !stand_in_place(&placed) {
        return Ok(None);
    }
    Ok(Some(writes_in(alloc, &placed)?))
}
