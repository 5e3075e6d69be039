//! The map itself: one list of pairs, and where its members begin.

ghost use Rattle.std.specs.Prelude.{◌≡◌, ◌*◌, ◌<◌, ◌≤◌, ◌^◌, [], ◌∷◌, IfOk};
ghost use Rattle.std.specs.FinMap.{empty};

use crate::bounds::next_bound;
use crate::pairs::insert_pair;
use crate::targets::{first_in_target, merge_target, split_target};
use cat_history::{Items, NoMemory, number_in, position_of};
use cat_key::{Name, Pair};
use shapes::{Full, MapPart, NameMap};
use std::alloc::Global;
use std::marker::Model;
use std::mem;

/// A map from names to numbers in several members, whose memory is taken once, when it is made. Each call looks at all
/// names. A target that is full is split in the middle, and one that with the next member has few names takes it in.
///
/// Contracts see it as its map, where its members begin, how many names a member can have and how many there can be.
#[derive(Drop)]
pub struct MemberMap {
    /// The names of all members with their numbers, in rising order.
    pairs: Vec<Pair>,
    /// Where the members begin, in rising order, but for the first one: it begins below all names.
    bounds: Vec<Name>,
    slots: usize,
    nodes: usize,
}

impl Model for MemberMap {
    ghost use Rattle.std.specs.Prelude.{vec_capacity};
    ghost use Rattle.cat_history.specs.Maps.{map_of};
    ghost use Rattle.member_map.specs.Members.{MemberedMap, membered_map_code, AreMembers, HaveMemory, anchors_of};

    ghost Value = { MemberedMap };

    ghost coded = { membered_map_code };

    ghost view = { λ m. record {
      contents = map_of m.pairs.items;
      anchors = anchors_of m.bounds.items;
      slots = m.slots;
      nodes = m.nodes;
    } };

    ghost invariant = { λ m. AreMembers m.slots m.nodes m.pairs.items m.bounds.items
        × HaveMemory m.slots m.nodes (vec_capacity m.pairs) (vec_capacity m.bounds) };
}

impl MemberMap {
    /// An empty map of one member, whose members can have so many names each, and of which there can be so many. It
    /// takes the memory of all of them at once, and no put takes any.
    pub fn new(alloc: Global, slots: u64, nodes: u64) -> Result<MemberMap, NoMemory>
        // A member that is split has a name for each half.
        requires halves { 2 ≤ slots }
        requires some { 1 ≤ nodes }
        requires fits { slots * nodes < 2 ^ 64 }
        ensures empty { IfOk result (λ map. map.contents ≡ empty) }
        ensures anchors { IfOk result (λ map. map.anchors ≡ [] ∷ []) }
        ensures slots { IfOk result (λ map. map.slots ≡ slots) }
        ensures nodes { IfOk result (λ map. map.nodes ≡ nodes) }
    {
        let slots = slots as usize;
        let nodes = nodes as usize;
        Ok(MemberMap {
            pairs: Vec::with_capacity(alloc, slots * nodes)?,
            bounds: Vec::with_capacity(alloc, nodes)?,
            slots,
            nodes,
        })
    }
}

impl NameMap for MemberMap {
    ghost use Rattle.std.specs.Prelude.{◌^◌};

    ghost contents = { λ map. map.contents };

    ghost anchors = { λ map. map.anchors };

    ghost slots = { λ map. map.slots };

    ghost most = { λ map. map.nodes };

    // No call uses anything up.
    ghost calls_left = { λ _. 2 ^ 64 };

    ghost writes_left = { λ _. 2 ^ 64 };

    fn has_shape(&self) {
        // Its fields have what is known of it.
        let _slots = self.slots;
    }

    fn get(&mut self, name: &Name) -> Option<u64> {
        number_in(&self.pairs, name)
    }

    fn part(&mut self, alloc: Global, low: &Name, count: u64) -> Result<MapPart, NoMemory> {
        let listed = first_in_target(alloc, &self.pairs, &self.bounds, low, count)?;
        Ok(MapPart {
            high: next_bound(&self.bounds, low),
            pairs: Items::of(listed),
        })
    }

    fn put(&mut self, name: &Name, value: u64) -> Result<Option<u64>, Full> {
        if let Some(position) = position_of(&self.pairs, name) {
            let old = mem::replace(&mut self.pairs[position].value, value);
            return Ok(Some(old));
        }
        if !split_target(&mut self.bounds, &self.pairs, name, self.slots, self.nodes) {
            return Err(Full);
        }
        insert_pair(&mut self.pairs, name, value);
        Ok(None)
    }

    fn del(&mut self, name: &Name) -> Option<u64> {
        let position = position_of(&self.pairs, name)?;
        let old = self.pairs.remove(position).value;
        merge_target(&mut self.bounds, &self.pairs, name, self.slots);
        Some(old)
    }

    fn len(&self) -> u64 {
        self.pairs.len() as u64
    }
}
