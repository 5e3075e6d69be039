//! Whether each call on one name was told the number that the map has at its place.

ghost use Rattle.std.specs.Prelude.{◌≡◌, ◌↔◌, All, IfOk, IsTrue};
ghost use Rattle.std.specs.FinMap.{entries};
ghost use Rattle.std.specs.List.Sorted.{IsNonDecreasingBy, IsPermutation};
ghost use Rattle.cat_history.specs.Maps.{Map, at, map_of};
ghost use Rattle.cat_history.specs.Writes.{after};
ghost use Rattle.transcript.specs.Looks.{IsRight, look_of, looks_of};
ghost use Rattle.transcript.specs.Rules.{TellsItsNumber};
ghost use Rattle.transcript.specs.declared.looks.Look.{Look};

use crate::NoMemory;
use crate::names::grow;
use cat_history::{Names, Op, Record, Reply, Write, names_of};
use cat_key::{Name, Pair};
use std::alloc::Global;

/// The number that a call was told of a name, at its place.
#[derive(Clone, Copy)]
pub(crate) struct Look {
    pub place: u64,
    pub name: Name,
    pub old: Option<u64>,
}

/// What a call on one name was told.
fn look_of(record: &Record) -> Option<Look>
    ensures { result ≡ look_of «record».now }
{
    let Reply::Old { old, place } = &record.reply else {
        return None;
    };
    let name = match record.op {
        Op::Put { name, .. } | Op::Get { name } | Op::Del { name } => name,
        Op::Scan { .. } => return None,
    };
    Some(Look {
        place: *place,
        name,
        old: *old,
    })
}

/// What calls on one name were told, in the order of the records.
fn looks_told(alloc: Global, told: &[Record]) -> Result<Vec<Look>, NoMemory>
    ensures { IfOk result (λ looks. looks.items ≡ looks_of told.now) }
{
    told.iter()
        .filter_map(|record| look_of(record))
        .collect(alloc)
}

/// The looks in the order of their places.
fn by_place(looks: Vec<Look>) -> Vec<Look>
    ensures same { IsPermutation looks.items result.items }
    ensures rising { IsNonDecreasingBy (λ (look : Look). look.place) result.items }
{
    let mut sorted = looks;
    sorted.sort_unstable_by_key(|look| look.place);
    sorted
}

/// Whether the map has the number that was told.
fn is_right(names: &Names, look: &Look) -> bool
    ensures { (m : Map) → names.now.entries ≡ entries m → IsTrue result ↔ (look.now.old ≡ at m look.now.name) }
{
    names.get(&look.name).copied() == look.old
}

/// Whether all looks are right, which stand in the order of their places.
fn are_right(
    alloc: Global,
    base: &[Pair],
    writes: &[Write],
    looks: &[Look],
) -> Result<bool, NoMemory>
    requires { IsNonDecreasingBy (λ (look : Look). look.place) looks.now }
    ensures { IfOk result (λ yes. IsTrue yes ↔ All (IsRight (after (map_of base.now) writes.now)) looks.now) }
{
    let mut names = names_of(alloc, base)?;
    let mut done = 0;
    for look in looks {
        done = grow(&mut names, writes, done, look.place)?;
        if !is_right(&names, look) {
            return Ok(false);
        }
    }
    Ok(true)
}

/// Whether each call on one name that tells a number tells the one that the map at its place has.
///
/// It takes time in proportion to the base, the records and the writes, and to the logarithm of how many there are.
pub(crate) fn numbers_agree(
    alloc: Global,
    base: &[Pair],
    writes: &[Write],
    told: &[Record],
) -> Result<bool, NoMemory>
    ensures { IfOk result (λ yes. IsTrue yes
        ↔ All (λ r. TellsItsNumber (after (map_of base.now) writes.now) r.op r.reply) told.now) }
{
    let looks = by_place(looks_told(alloc, told)?);
    are_right(alloc, base, writes, &looks)
}
