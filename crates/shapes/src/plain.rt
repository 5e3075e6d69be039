//! The slow plain map of the definitions: pairs in no order, each looked for from the front.

ghost use Rattle.std.specs.Prelude.{◌≡◌, ◌<◌, ◌^◌, All, IfOk, not, take};
ghost use Rattle.std.specs.FinMap.{empty};
ghost use Rattle.std.specs.List.{filter};
ghost use Rattle.std.specs.List.Sorted.{IsPermutation, IsSortedByKey};
ghost use Rattle.cat_key.specs.Names.{IsName, name_cmp};
ghost use Rattle.cat_history.specs.Scans.{is_below};

use crate::map::{Full, MapPart, NameMap};
use cat_history::{Items, NoMemory, number_in, position_of};
use cat_key::{Name, Pair};
use std::alloc::Global;
use std::marker::Model;
use std::mem;

/// A map from names to numbers whose memory is taken once, when it is made. Each call takes time linear in the number
/// of names. Contracts see it as its map and its room.
#[derive(Drop)]
pub struct PlainMap {
    pairs: Vec<Pair>,
    room: usize,
}

impl Model for PlainMap {
    ghost use Rattle.std.specs.Prelude.{vec_capacity};
    ghost use Rattle.cat_history.specs.Maps.{map_of};
    ghost use Rattle.shapes.specs.PlainMaps.{RoomyMap, roomy_map_code, ArePlainPairs};

    ghost Value = { RoomyMap };

    ghost coded = { roomy_map_code };

    ghost view = { λ m. record { contents = map_of m.pairs.items; room = m.room } };

    ghost invariant = { λ m. ArePlainPairs m.pairs.items m.room (vec_capacity m.pairs) };
}

impl PlainMap {
    /// An empty map with room for this many names. It takes the memory of all of them at once, and no other call takes
    /// any.
    pub fn new(alloc: Global, room: u64) -> Result<PlainMap, NoMemory>
        ensures empty { IfOk result (λ map. map.contents ≡ empty) }
        ensures room { IfOk result (λ map. map.room ≡ room) }
    {
        let room = room as usize;
        Ok(PlainMap {
            pairs: Vec::with_capacity(alloc, room)?,
            room,
        })
    }
}

impl NameMap for PlainMap {
    ghost use Rattle.std.specs.Prelude.{◌^◌, [], ◌∷◌};

    ghost contents = { λ map. map.contents };

    // It is one member, and there can be no other.
    ghost anchors = { λ _. [] ∷ [] };

    ghost slots = { λ map. map.room };

    ghost most = { λ _. 1 };

    // No call uses anything up.
    ghost calls_left = { λ _. 2 ^ 64 };

    ghost writes_left = { λ _. 2 ^ 64 };

    fn has_shape(&self) {
        // Its fields have what is known of it.
        let _room = self.room;
    }

    fn get(&mut self, name: &Name) -> Option<u64> {
        number_in(&self.pairs, name)
    }

    fn part(&mut self, alloc: Global, low: &Name, count: u64) -> Result<MapPart, NoMemory> {
        let pairs = in_order(alloc, &self.pairs)?;
        let listed = first_from(alloc, &pairs, low, count)?;
        Ok(MapPart {
            high: None,
            pairs: Items::of(listed),
        })
    }

    fn put(&mut self, name: &Name, value: u64) -> Result<Option<u64>, Full> {
        if let Some(position) = position_of(&self.pairs, name) {
            let old = mem::replace(&mut self.pairs[position].value, value);
            return Ok(Some(old));
        }
        if self.pairs.len() == self.room {
            return Err(Full);
        }
        // There is room for one more name, and memory for each name that there is room for.
        self.pairs.push_reserved(Pair { name: *name, value });
        Ok(None)
    }

    fn del(&mut self, name: &Name) -> Option<u64> {
        let position = position_of(&self.pairs, name)?;
        Some(self.pairs.remove(position).value)
    }

    fn len(&self) -> u64 {
        self.pairs.len() as u64
    }
}

/// The pairs in rising order of names.
fn in_order(alloc: Global, pairs: &[Pair]) -> Result<Vec<Pair>, NoMemory>
    ensures same { IfOk result (λ sorted. IsPermutation pairs.now sorted.items) }
    ensures rising { IfOk result (λ sorted. IsSortedByKey (λ pair. pair.name) name_cmp sorted.items) }
{
    let mut sorted = pairs.to_vec(alloc)?;
    sorted.sort_unstable_by_key(|pair| pair.name);
    Ok(sorted)
}

/// The first of the pairs, so many at most, whose names are at least this one.
fn first_from(alloc: Global, pairs: &[Pair], low: &Name, count: u64) -> Result<Vec<Pair>, NoMemory>
    ensures first { IfOk result
        (λ first. first.items ≡ take count (filter (λ pair. not (is_below pair.name low.now)) pairs.now)) }
    ensures named { IfOk result (λ first. All (λ pair. IsName pair.name × (pair.value < 2 ^ 64)) first.items) }
{
    let mut first = Vec::new(alloc);
    for pair in pairs {
        if (first.len() as u64) < count && pair.name >= *low {
            first.push(told(*pair))?;
        }
    }
    Ok(first)
}

/// The pair itself: a name with a number.
pub fn told(pair: Pair) -> Pair
    ensures same { result ≡ pair }
    ensures named { IsName result.name × (result.value < 2 ^ 64) }
{
    pair
}
