//! Whether the parts of each scan are legal.

ghost use Rattle.std.specs.Prelude.{◌↔◌, true, All, IfOk, IsTrue};
ghost use Rattle.cat_history.specs.Maps.{map_of};
ghost use Rattle.cat_history.specs.Writes.{after};
ghost use Rattle.cat_history.specs.declared.record.Record.{Record};
ghost use Rattle.transcript.specs.Chains.{AreChained, Begins, IsChained};
ghost use Rattle.transcript.specs.Rules.{TellsItsParts};

use crate::NoMemory;
use crate::parts::{by_place, list_first, looks_told};
use cat_history::{Op, Record, Reply, ScanPart, Write};
use cat_key::{Name, Pair};
use std::alloc::Global;

/// Whether a part begins at this name, no sooner than at this place, and its bounds are in order.
fn begins(part: &ScanPart, low: &Name, place: u64) -> bool
    ensures { IsTrue result ↔ Begins low.now place part.now }
{
    if part.low != *low || part.place < place {
        return false;
    }
    match part.high {
        Some(high) => part.low < high,
        None => true,
    }
}

/// Whether the parts of a scan follow one another, each from where the one before it ended, and just those of a scan
/// that wasn't cut off come to its end.
fn are_chained(from: &Name, count: u64, cut: bool, parts: &[ScanPart]) -> bool
    ensures { IsTrue result ↔ AreChained cut true from.now count 0 parts.now }
{
    let mut goes = true;
    let mut low = *from;
    let mut left = count;
    let mut place = 0;
    for part in parts {
        if !goes || !begins(part, &low, place) {
            return false;
        }
        let listed = part.pairs.as_slice().len() as u64;
        let Some(high) = part.high else {
            goes = false;
            continue;
        };
        if listed > left {
            return false;
        }
        if listed == left {
            goes = false;
            continue;
        }
        low = high;
        left -= listed;
        place = part.place;
    }
    goes == cut
}

/// The same of a call that was answered so, if it is a scan that was told its parts.
fn is_chained(op: &Op, reply: &Reply) -> bool
    ensures { IsTrue result ↔ IsChained op.now reply.now }
{
    match (op, reply) {
        (Op::Scan { from, count }, Reply::Parts { parts, cut }) => {
            are_chained(from, *count, *cut, parts.as_slice())
        }
        _ => true,
    }
}

/// Whether the parts of each scan follow one another.
fn all_chained(told: &[Record]) -> bool
    ensures { IsTrue result ↔ All (λ (r : Record). IsChained r.op r.reply) told.now }
{
    told.iter()
        .all(|record| is_chained(&record.op, &record.reply))
}

/// Whether the parts of each scan are legal.
///
/// It takes time in proportion to the base, the records with what they list, and the writes, and to the logarithm of
/// how many there are.
pub(crate) fn scans_agree(
    alloc: Global,
    base: &[Pair],
    writes: &[Write],
    told: &[Record],
) -> Result<bool, NoMemory>
    ensures { IfOk result (λ yes. IsTrue yes
        ↔ All (λ (r : Record). TellsItsParts (after (map_of base.now) writes.now) r.op r.reply) told.now) }
{
    if !all_chained(told) {
        return Ok(false);
    }
    let looks = by_place(looks_told(alloc, told)?);
    list_first(alloc, base, writes, &looks)
}
