//! Walks over rows of words that are made by hand: where they come, and by how many loads.

ghost use Rattle.std.specs.Prelude.{◌≡◌, ◌<◌, ◌-◌, ◌^◌, ℕ, IfSome};
ghost use Rattle.pm_words.specs.Layouts.{IsLayout};
ghost use Rattle.call_stages.specs.Kinds.{Told};

use cat_key::WORDS;
use data_list::{Walk, Walked};
use pm_words::offsets::{node, volatile};
use pm_words::{Action, Layout, Machine, Turn};

/// The last generation that there is, so that no version word is of a later one.
const RUN: u64 = (1 << 24) - 1;

/// Words enough for the volatile and the cached words of five nodes.
const ROW: usize = 400;

/// No walk over so few nodes takes as many loads.
const MANY: u64 = 100;

/// The statuses of nodes.
const FREE: u64 = 0;

const LIVE: u64 = 1;

const GONE: u64 = 2;

/// A list of the nodes 0, 2 and 1, with the anchors g and p. Node 3 was merged into node 2, and node 4 is free. Each row
/// has a node, its status, its prev, the letter of its anchor, and the node to which it leads.
const THREE: [[u64; 5]; 5] = [
    [0, LIVE, 0, 0, 2],
    [2, LIVE, 0, 0x67, 1],
    [1, LIVE, 2, 0x70, 0],
    [3, GONE, 2, 0x6D, 1],
    [4, FREE, 0, 0x7A, 3],
];

/// Node 3 was merged into node 1, and before that node 4 into node 3.
const MERGED: [[u64; 5]; 5] = [
    [0, LIVE, 0, 0, 2],
    [2, LIVE, 0, 0x67, 1],
    [1, LIVE, 2, 0x70, 0],
    [3, GONE, 1, 0x7A, 0],
    [4, GONE, 3, 0x7A, 0],
];

fn put(words: &mut [u64], address: u64, word: u64) {
    if let Some(place) = words.get_mut(address as usize) {
        *place = word;
    }
}

fn put_node(words: &mut [u64], layout: Layout, of: [u64; 5])
    requires { IsLayout layout }
{
    let [number, status, prev, letter, next] = of;
    if number < layout.nodes() {
        let anchor = layout.node_word(number, node::ANCHOR);
        let next_at = layout.node_word(number, node::NEXT);
        put(
            words,
            layout.node_volatile(number, volatile::STATUS),
            status,
        );
        put(words, layout.node_volatile(number, volatile::PREV), prev);
        put(words, layout.cached(anchor), letter << 56);
        put(words, layout.cached(next_at), next);
    }
}

/// The word that is loaded, where a walk may be told it in the last generation: any word, but for some of node 0.
fn loaded(words: &[u64], layout: &Layout, action: Action) -> Option<u64>
    requires { IsLayout layout.now }
    ensures { IfSome result (λ got. Told layout.now (2 ^ 24 - 1) action got) }
{
    let Action::Load(address) = action else {
        return None;
    };
    let Some(got) = words.get(address as usize) else {
        return None;
    };
    let got = *got;
    let anchor = layout.cached(layout.node_word(0, node::ANCHOR));
    if address == layout.node_volatile(0, volatile::STATUS) && got != LIVE {
        return None;
    }
    if address >= anchor && address < anchor + WORDS as u64 && got != 0 {
        return None;
    }
    if address == layout.cached(layout.node_word(0, node::NEXT)) && got >= layout.nodes() {
        return None;
    }
    Some(got)
}

/// The node of the walk, the letters of its bounds, its hops and the loads.
fn told(walked: Walked, loads: u64) -> Option<[u64; 5]> {
    let Walked::Target(target) = walked else {
        return None;
    };
    let high = match target.high {
        Some(high) => u64::from(high.byte(0)),
        None => 0,
    };
    Some([target.node, target.low[0] >> 56, high, target.hops, loads])
}

/// What a walk from this node to the key of a letter comes to.
fn target_of(words: &[u64], layout: Layout, hint: u64, letter: u64) -> Option<[u64; 5]>
    requires { IsLayout layout }
{
    if hint >= layout.nodes() {
        return None;
    }
    let mut walk = Walk::new(layout, RUN, hint, [letter << 56, 0, 0]);
    'turns: for step in 0..MANY {
        let action = walk.action();
        let Some(got) = loaded(words, &layout, action) else {
            return None;
        };
        match walk.resume(got) {
            Turn::Go(next) => walk = next,
            Turn::Done(walked) => return told(walked, step + 1),
        }
    }
    None
}

/// The number of the first of these walks over these nodes that comes otherwise: from a node to a letter, which is 0
/// for the zero key; then the node to which it comes, the letters of its bounds, its hops and the loads.
fn first_other(nodes: &[[u64; 5]; 5], ways: &[[u64; 7]]) -> Option<usize> {
    let Ok(layout) = Layout::new(5, 4, 1) else {
        return Some(0);
    };
    let mut words = [0; ROW];
    for of in nodes {
        put_node(&mut words, layout, *of);
    }
    for (number, way) in ways.iter().enumerate() {
        let [hint, letter, node, low, high, hops, loads] = *way;
        if target_of(&words, layout, hint, letter) != Some([node, low, high, hops, loads]) {
            return Some(number);
        }
    }
    None
}

/// A walk loads version and status of a node, the three words of its anchor, its next, and where there is one the three
/// words of that node's anchor: 9 loads, and 6 at the last node. It leaves a GONE node after 3, a FREE one after 2, and
/// one whose anchor is past the key after 6.
const WAYS: [[u64; 7]; 12] = [
    [0, 0, 0, 0, 0x67, 0, 9],
    [0, 0x61, 0, 0, 0x67, 0, 9],
    [0, 0x67, 2, 0x67, 0x70, 1, 9 + 9],
    [0, 0x6F, 2, 0x67, 0x70, 1, 9 + 9],
    [0, 0x70, 1, 0x70, 0, 2, 9 + 9 + 6],
    [2, 0x68, 2, 0x67, 0x70, 0, 9],
    [1, 0x68, 2, 0x67, 0x70, 1, 6 + 9],
    [1, 0x61, 0, 0, 0x67, 2, 6 + 6 + 9],
    [3, 0x68, 2, 0x67, 0x70, 1, 3 + 9],
    [3, 0x7A, 1, 0x70, 0, 2, 3 + 9 + 6],
    [4, 0x61, 0, 0, 0x67, 1, 2 + 9],
    [4, 0x7A, 1, 0x70, 0, 3, 2 + 9 + 9 + 6],
];

/// From merged nodes a walk meets all nodes at most.
const MERGED_WAYS: [[u64; 7]; 4] = [
    [3, 0x7A, 1, 0x70, 0, 1, 3 + 6],
    [4, 0x7A, 1, 0x70, 0, 2, 3 + 3 + 6],
    [4, 0x68, 2, 0x67, 0x70, 3, 3 + 3 + 6 + 9],
    [4, 0x61, 0, 0, 0x67, 4, 3 + 3 + 6 + 6 + 9],
];

#[test]
fn walks_take_their_loads(rt: HostRuntime) {
    assert!(rt; first_other(&THREE, &WAYS).is_none());
    assert!(rt; first_other(&MERGED, &MERGED_WAYS).is_none());
}
