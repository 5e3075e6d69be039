//! How many actions sets and unsets of keys take, in each form of cells, counted by hand.

ghost use Rattle.std.specs.Prelude.{◌≡◌, ◌≢◌, ◌<◌, ◌≤◌};
ghost use Rattle.layer_map.specs.Keys.{key_number};
ghost use Rattle.tree_update.specs.Changes.{IsChange};

use pm_words::{Image, Layout, Machine, Memory, Steps, Turn};
use radix_nodes::Key;
use search_layer::{Change, Set, Unset};
use std::alloc::Global;
use std::marker::Brand;
use std::sync::ledger::{Blank, Ledger};
use tree_marks::mark_tree;

/// No change has as many actions.
const MANY: u64 = 3000;

/// How many changes are made, one after another, and the greatest of their keys.
const CHANGES: usize = 53;

const LAST: u64 = 49;

/// A key by its number, which is its first byte.
fn key_of(number: u64) -> Key
    ensures { 1 ≤ number → key_number result ≢ 0 }
{
    match number {
        0 => [0, 0, 0],
        _ => [number.min(LAST) << 56, 0, 0],
    }
}

/// Each change as the number of its key and the node and one to which that leads then: a new key, another node for it,
/// its removal, and the removal of a key that isn't there, by 0; then the keys from 1 on, one after another.
fn change_at(at: usize) -> [u64; 2] {
    match at {
        0 => [3, 3],
        1 => [3, 2],
        2 | 3 => [3, 0],
        _ => [at as u64 - 3, 1],
    }
}

/// The memory of a fresh image with its marks.
fn fresh(alloc: Global) -> Option<Memory> {
    let layout = Layout::new(LAST + 1, 4, 1).ok()?;
    let image = Image::fresh(alloc, layout).ok()?;
    let mut memory = Memory::of(alloc, image).ok()?;
    mark_tree(&mut memory);
    Some(memory)
}

/// How many actions a change takes.
fn run<L: Ledger>(memory: &mut Memory, change: Change, steps: &mut Steps<L>) -> u64
    requires layout { change.layout ≡ memory.old.layout }
    requires sound { IsChange change }
{
    let mut change = change;
    'turns: for step in 0..MANY {
        let action = change.action();
        let got = memory.act(action, steps);
        match change.resume(got) {
            Turn::Go(next) => change = next,
            Turn::Done(_) => return step + 1,
        }
    }
    MANY
}

fn make<L: Ledger>(memory: &mut Memory, number: u64, word: u64, steps: &mut Steps<L>) -> u64 {
    let layout = memory.layout();
    let key = key_of(number);
    match word {
        0 if number > 0 => run(memory, Unset::new(layout, key).change, steps),
        word if 0 < word && word <= layout.nodes() => {
            run(memory, Set::new(layout, key, word - 1).change, steps)
        }
        _ => 0,
    }
}

/// How many actions the changes of a fresh memory take.
fn taken<L: Ledger>(alloc: Global, blank: Blank) -> Option<[u64; CHANGES]>
    requires name { blank.name ≡ L.name }
    requires parts { (blank.parts ≡ L.parts) × (0 < L.parts) }
{
    let (book, share) = blank.open::<L>();
    let mut steps = Steps::new(book, share);
    let mut memory = fresh(alloc)?;
    let mut taken = [0; CHANGES];
    for at in 0..CHANGES {
        let [number, word] = change_at(at);
        taken[at] = make(&mut memory, number, word, &mut steps);
    }
    Some(taken)
}

/// The places of changes, and how many actions those take.
const ACTIONS: [[u64; 2]; 14] = [
    // The root's word refers to a leaf, whose key is loaded, and then to a cell of form 4: of that depth, prefix and
    // entries are loaded up to that of the key, which is the second one, and of the leaf there the key. A mark is free
    // behind those that are set, and set then. A leaf or a cell is filled by 8 stores a line and a fence of 16 actions
    // for each; a switch store has a fence too. The unset loads the depth again and all four entries, and takes the
    // marks of the leaf and the cell away.
    [0, 4 + 3 + 24 + 2 + 24 + 17],
    [1, 5 + 2 + 3 + 17],
    [2, 5 + 2 + 3 + 1 + 4 + 17 + 2],
    [3, 4],
    // The key at place 3 + n comes to n children of the root's cell. As many leaves have their marks, and the next one
    // has none. A look loads the root's word, the depth and the prefix, and of form 4 or 16 all entries, of form 48 a
    // word of the index, of form 256 a reference. Room is looked for in the entries up to a free one. In form 48 it is
    // looked for in the index, of which the place of the k-th byte takes the words up to that byte's, and a free one
    // all 32 and the byte's once more; the reference there has a fence of its own. A full cell is read, of 8, 24 or 88
    // words, and its mark is taken away once the larger one, of 3, 11 or 33 lines, is in its place.
    [3 + 2, 9 + 4 + 24 + 3 + 17],
    [3 + 3, 9 + 5 + 24 + 4 + 17],
    [3 + 4, 9 + 6 + 24 + 4 + 8 + 2 + 3 * 24 + 18],
    [3 + 5, 21 + 7 + 24 + 6 + 17],
    [3 + 15, 21 + 17 + 24 + 16 + 17],
    [3 + 16, 21 + 18 + 24 + 16 + 24 + 2 + 11 * 24 + 18],
    [3 + 17, 6 + 19 + 24 + (8 * 3 + 3) + 33 + 34],
    [3 + 47, 6 + 49 + 24 + (8 * 15 + 7 * 6) + 33 + 34],
    [3 + 48, 6 + 50 + 24 + 8 * 21 + 88 + 2 + 33 * 24 + 18],
    [3 + 49, 6 + 51 + 24 + 17],
];

/// The first of these places at which a change takes another number of actions.
fn first_other(taken: &[u64]) -> Option<u64> {
    for [place, actions] in ACTIONS {
        if taken.get(place as usize) != Some(&actions) {
            return Some(place);
        }
    }
    None
}

#[test]
fn changes_take_their_actions(rt: HostRuntime) {
    let taken = taken::<Brand>(rt.alloc(), Blank::new(1)).unwrap_or([0; CHANGES]);
    assert!(rt; first_other(&taken).is_none());
}
