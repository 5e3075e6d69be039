//! The target of a name: what it lists, and what splits and merges it.

ghost use Rattle.std.specs.Prelude.{◌≡◌, ◌<◌, ◌≤◌, ◌^◌, ◌↔◌, All, IfOk, IsSome, None, take, vec_capacity};
ghost use Rattle.std.specs.Prelude.{IsTrue, IsFalse};
ghost use Rattle.std.specs.FinMap.{remove};
ghost use Rattle.cat_key.specs.Names.{IsName};
ghost use Rattle.cat_history.specs.Maps.{Map, at, map_of};
ghost use Rattle.cat_history.specs.Replays.{pairs_of};
ghost use Rattle.cat_history.specs.Scans.{range};
ghost use Rattle.shapes.specs.Anchors.{AreAnchors, next_of, IsFullPut, put_anchors, del_anchors};
ghost use Rattle.member_map.specs.Members.{AreMembers, anchors_of};

use crate::bounds::{insert_bound, next_bound, number_of, second_bound, target_bound};
use crate::pairs::{count_between, lies_between, name_behind};
use cat_history::NoMemory;
use cat_key::{Name, Pair};
use shapes::told;
use std::alloc::Global;

/// The first names of the target of this name that are at least it, so many at most, with their numbers.
pub fn first_in_target(
    alloc: Global,
    pairs: &[Pair],
    bounds: &[Name],
    low: &Name,
    count: u64,
) -> Result<Vec<Pair>, NoMemory>
    requires in_order { pairs.now ≡ pairs_of (map_of pairs.now) }
    requires rise { AreAnchors (anchors_of bounds.now) }
    ensures first { IfOk result (λ first. first.items ≡ take count
        (range (map_of pairs.now) low.now (next_of (anchors_of bounds.now) low.now))) }
    ensures named { IfOk result (λ first. All (λ pair. IsName pair.name × (pair.value < 2 ^ 64)) first.items) }
{
    let from = Some(*low);
    let high = next_bound(bounds, low);
    let mut first = Vec::new(alloc);
    for pair in pairs {
        if (first.len() as u64) < count && lies_between(&pair.name, &from, &high) {
            first.push(told(*pair))?;
        }
    }
    Ok(first)
}

/// Splits the target of a name that the pairs lack, where it has no room for one more. False where that asks for a
/// member more than there can be: then all stays as it was.
pub fn split_target(
    bounds: &mut Vec<Name>,
    pairs: &[Pair],
    name: &Name,
    slots: usize,
    nodes: usize,
) -> bool
    requires members { AreMembers slots nodes pairs.now bounds.old.items }
    requires reserved { nodes ≤ vec_capacity bounds.old }
    requires lacks { at (map_of pairs.now) name.now ≡ None }
    ensures full { IsFalse result ↔ IsFullPut slots nodes (map_of pairs.now) (anchors_of bounds.old.items) name.now }
    ensures splits { IsTrue result →
        anchors_of bounds.new.items ≡ put_anchors slots (map_of pairs.now) (anchors_of bounds.old.items) name.now }
    ensures stays { IsFalse result → bounds.new.items ≡ bounds.old.items }
    ensures capacity { vec_capacity bounds.new ≡ vec_capacity bounds.old }
{
    let low = target_bound(bounds, name);
    let high = next_bound(bounds, name);
    if count_between(pairs, &low, &high) < slots {
        return true;
    }
    if bounds.len() + 1 == nodes {
        return false;
    }
    let middle = name_behind(pairs, &low, slots / 2);
    let place = number_of(bounds, name);
    insert_bound(bounds, place, middle);
    true
}

/// Merges the target of a name with the next member, where both have few names together. The name is one that the pairs
/// had, and have no more.
pub fn merge_target(bounds: &mut Vec<Name>, pairs: &[Pair], name: &Name, slots: usize)
    requires in_order { pairs.now ≡ pairs_of (map_of pairs.now) }
    requires rise { AreAnchors (anchors_of bounds.old.items) }
    ensures merges { (m : Map) → IsSome (at m name.now) → map_of pairs.now ≡ remove m name.now →
        anchors_of bounds.new.items ≡ del_anchors slots m (anchors_of bounds.old.items) name.now }
    ensures capacity { vec_capacity bounds.new ≡ vec_capacity bounds.old }
{
    if next_bound(bounds, name).is_none() {
        return;
    }
    let low = target_bound(bounds, name);
    let high = second_bound(bounds, name);
    if count_between(pairs, &low, &high) > slots / 2 {
        return;
    }
    let place = number_of(bounds, name);
    bounds.remove(place);
}
