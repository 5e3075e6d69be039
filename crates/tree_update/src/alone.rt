//! Floors, sets and unsets run to their ends, with nobody else at the memory.
ghost use Rattle.std.specs.Prelude.{◌≡◌, ◌≢◌, ◌<◌, ◌≤◌, ◌+◌, Some, None};
ghost use Rattle.layer_map.specs.Layers.{HasFew, IsFloorOf, node_of};
ghost use Rattle.layer_map.specs.Keys.{key_number};
ghost use Rattle.tree_floor.specs.Floors.{floor_most};
ghost use Rattle.tree_update.specs.Changes.{IsChange, change_starts, change_most};
ghost use Rattle.tree_update.specs.Stages.{aim_of, IsRooted};
ghost use Rattle.tree_update.specs.Runs.{layer_in, IsAtRest};
ghost use Rattle.tree_update.specs.Alone.{IsInOrder, IsChanged};

use crate::change::Change;
use crate::set::{Set, Unset};
use pm_words::{Machine, Memory, Steps, Turn};
use radix_nodes::Key;
use std::sync::ledger::Ledger;
use tree_floor::Floor;

/// The node of the greatest key that is at most this one, or node 0 where no key is.
pub fn floor_alone<L: Ledger>(memory: &mut Memory, key: Key, steps: &mut Steps<L>) -> u64
    requires { IsInOrder memory.old.layout memory.old.words }
    ensures same { memory.new ≡ memory.old }
    ensures floor { IsFloorOf (layer_in memory.old.layout memory.old.words) (key_number key) result }
    ensures bounded { steps.new ≤ steps.old + floor_most }
{
    let mut floor = Floor::new(memory.layout(), key);
    'turns: loop {
        let got = memory.act(floor.action(), steps);
        match floor.resume(got) {
            Turn::Go(next) => floor = next,
            Turn::Done(node) => return node,
        }
    }
}

/// Sets the key to the node, and makes that durable. The layer is to have at most as many keys as there are nodes.
pub fn set_alone<L: Ledger>(memory: &mut Memory, key: Key, node: u64, steps: &mut Steps<L>)
    requires node { node < memory.old.layout.nodes }
    requires rest { IsAtRest memory.old.layout memory.old.words }
    requires few { HasFew memory.old.layout.nodes (layer_in memory.old.layout memory.old.words) }
    ensures layout { memory.new.layout ≡ memory.old.layout }
    ensures set { IsChanged memory.old.layout (key_number key) (Some node) memory.old.words memory.new.words }
    ensures bounded { steps.new ≤ steps.old + change_most memory.old.layout }
{
    let set = Set::new(memory.layout(), key, node);
    run_alone(memory, set.change, steps);
}

/// Takes the key out, which isn't zero, and makes that durable. The layer is to lead zero to a node.
pub fn unset_alone<L: Ledger>(memory: &mut Memory, key: Key, steps: &mut Steps<L>)
    requires key { key_number key ≢ 0 }
    requires rest { IsAtRest memory.old.layout memory.old.words }
    requires rooted { layer_in memory.old.layout memory.old.words 0 ≢ None }
    ensures layout { memory.new.layout ≡ memory.old.layout }
    ensures unset { IsChanged memory.old.layout (key_number key) None memory.old.words memory.new.words }
    ensures bounded { steps.new ≤ steps.old + change_most memory.old.layout }
{
    let unset = Unset::new(memory.layout(), key);
    run_alone(memory, unset.change, steps);
}

/// Runs a change from its beginning to its end.
fn run_alone<L: Ledger>(memory: &mut Memory, change: Change, steps: &mut Steps<L>)
    requires start { change ≡ change_starts memory.old.layout change.key change.word }
    requires sound { IsChange change }
    requires rest { IsAtRest memory.old.layout memory.old.words }
    requires few { change.word ≢ 0 → HasFew memory.old.layout.nodes (layer_in memory.old.layout memory.old.words) }
    requires rooted { IsRooted (aim_of change) (layer_in memory.old.layout memory.old.words) }
    ensures layout { memory.new.layout ≡ memory.old.layout }
    ensures changed { IsChanged memory.old.layout (key_number change.key) (node_of change.word) memory.old.words
        memory.new.words }
    ensures bounded { steps.new ≤ steps.old + change_most memory.old.layout }
{
    let _row = memory.layout();
    let mut change = change;
    'turns: loop {
        let got = memory.act(change.action(), steps);
        match change.resume(got) {
            Turn::Go(next) => change = next,
            Turn::Done(_) => return,
        }
    }
}
