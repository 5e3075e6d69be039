//! Whether each part of a scan lists what the map at its place has.

ghost use Rattle.std.specs.Prelude.{◌≡◌, ◌↔◌, ◌++◌, ℕ, List, All, IfOk, IsTrue, OnOk, map, take};
ghost use Rattle.std.specs.FinMap.{entries};
ghost use Rattle.std.specs.List.Sorted.{IsNonDecreasingBy, IsPermutation};
ghost use Rattle.cat_key.specs.declared.Pair.{Pair};
ghost use Rattle.cat_history.specs.Maps.{Map, map_of};
ghost use Rattle.cat_history.specs.Scans.{range};
ghost use Rattle.cat_history.specs.Writes.{after};
ghost use Rattle.transcript.specs.Chains.{ListsFirst, parts_left, parts_of_reply, parts_told, pair_of, seen};
ghost use Rattle.transcript.specs.declared.parts.PartLook.{PartLook};

use crate::NoMemory;
use crate::names::grow;
use cat_history::{Names, Op, Record, Reply, ScanPart, Write, names_of};
use cat_key::{Name, Pair};
use std::alloc::Global;
use std::collections::btree_map::Range;
use std::ops::Bound;

/// A part of a scan, and how many names are left to it.
#[derive(Clone, Copy)]
pub(crate) struct PartLook<'a> {
    pub left: u64,
    pub part: &'a ScanPart,
}

/// Adds the parts of a scan of so many names.
fn push_parts<'a>(
    looks: &mut Vec<PartLook<'a>>,
    parts: &'a [ScanPart],
    count: u64,
) -> Result<(), NoMemory>
    ensures { OnOk result (map seen looks.new.items ≡ map seen looks.old.items ++ parts_left count parts.entry.now) }
{
    let mut left = count;
    for part in parts {
        looks.push(PartLook { left, part })?;
        left = left.saturating_sub(part.pairs.as_slice().len() as u64);
    }
    Ok(())
}

/// Adds the parts of a scan that was told some.
fn push_record<'a>(looks: &mut Vec<PartLook<'a>>, record: &'a Record) -> Result<(), NoMemory>
    ensures { OnOk result (map seen looks.new.items
        ≡ map seen looks.old.items ++ parts_of_reply «record».entry.now.op «record».entry.now.reply) }
{
    if let (Op::Scan { count, .. }, Reply::Parts { parts, .. }) = (&record.op, &record.reply) {
        push_parts(looks, parts.as_slice(), *count)?;
    }
    Ok(())
}

/// The parts of all scans, in the order of the records.
pub(crate) fn looks_told<'a>(
    alloc: Global,
    told: &'a [Record],
) -> Result<Vec<PartLook<'a>>, NoMemory>
    ensures { IfOk result (λ looks. map seen looks.items ≡ parts_told told.entry.now) }
{
    let mut looks = Vec::new(alloc);
    for record in told {
        push_record(&mut looks, record)?;
    }
    Ok(looks)
}

/// The looks in the order of their places.
pub(crate) fn by_place(looks: Vec<PartLook<'_>>) -> Vec<PartLook<'_>>
    ensures same { IsPermutation looks.entry.items result.items }
    ensures rising { IsNonDecreasingBy (λ (look : PartLook). look.part.now.place) result.items }
{
    let mut sorted = looks;
    sorted.sort_unstable_by_key(|look| look.part.place);
    sorted
}

/// Whether the pairs are the first of those that were found, so many.
fn are_first(found: Range<'_, Name, u64>, pairs: &[Pair], left: u64) -> bool
    ensures { IsTrue result ↔ (pairs.now ≡ take left (map pair_of found.entry)) }
{
    let mut at = 0;
    for (name, value) in found {
        if at as u64 == left {
            return at == pairs.len();
        }
        if at == pairs.len() || pairs[at].name != *name || pairs[at].value != *value {
            return false;
        }
        at += 1;
    }
    at == pairs.len()
}

/// Whether a part lists the first names of its range, so many.
fn lists_first(names: &Names, part: &ScanPart, left: u64) -> bool
    ensures { (m : Map) → names.now.entries ≡ entries m
        → IsTrue result ↔ (part.now.pairs ≡ take left (range m part.now.low part.now.high)) }
{
    let pairs = part.pairs.as_slice();
    let Some(high) = part.high else {
        return are_first(
            names.range((Bound::Included(part.low), Bound::Unbounded)),
            pairs,
            left,
        );
    };
    if part.low < high {
        are_first(
            names.range((Bound::Included(part.low), Bound::Excluded(high))),
            pairs,
            left,
        )
    } else {
        pairs.is_empty()
    }
}

/// Whether the looks list what the maps at their places have, which stand in the order of their places.
pub(crate) fn list_first(
    alloc: Global,
    base: &[Pair],
    writes: &[Write],
    looks: &[PartLook<'_>],
) -> Result<bool, NoMemory>
    requires { IsNonDecreasingBy (λ (look : PartLook). look.part.now.place) looks.now }
    ensures { IfOk result (λ yes. IsTrue yes
        ↔ All (ListsFirst (after (map_of base.now) writes.now)) (map seen looks.now)) }
{
    let mut names = names_of(alloc, base)?;
    let mut done = 0;
    for look in looks {
        done = grow(&mut names, writes, done, look.part.place)?;
        if !lists_first(&names, look.part, look.left) {
            return Ok(false);
        }
    }
    Ok(true)
}
