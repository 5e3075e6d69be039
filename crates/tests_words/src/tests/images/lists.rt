//! The rules on the list, its anchors and the log, and the map that an image keeps.

use super::{A, AS, B, Base, RUN, first_other, image_with};
use cat_key::Name;
use image_rules::number_in;
use std::alloc::Global;

/// Node n of four starts at word 16 + 32 n: its bitmap is one word behind, its next word two, its anchor three, its
/// fingerprints eight, and slot k is 16 + 4 k behind.
const FOUR: Base = Base {
    nodes: 4,
    slots: 4,
    words: &[],
    all: false,
};

/// A list that goes by node 2, whose anchor is `a`, and then by node 1, whose anchor is `b`.
const LISTED: Base = Base {
    words: &[18, 2, 83, A, 82, 1, 51, B],
    ..FOUR
};

const NEXTS: [[u64; 10]; 13] = [
    // The last node is one, and the number behind it isn't.
    [0, 0, 18, 3, 115, A, 0, 0, 0, 0],
    [3, 18, 18, 4, 0, 0, 0, 0, 0, 0],
    [3, 18, 18, u64::MAX, 0, 0, 0, 0, 0, 0],
    [3, 50, 18, 1, 51, A, 50, 4, 0, 0],
    [3, 50, 18, 2, 82, 1, 50, 7, 0, 0],
    // No list leads to this node.
    [0, 0, 114, 9, 0, 0, 0, 0, 0, 0],
    // These lead back: to the node itself, from the third, past node 0, and from the last of all.
    [4, 50, 18, 1, 50, 1, 0, 0, 0, 0],
    [4, 82, 18, 1, 50, 2, 82, 1, 0, 0],
    [4, 82, 18, 3, 114, 2, 82, 3, 0, 0],
    [4, 114, 18, 1, 50, 2, 82, 3, 114, 1],
    // These break rules 1 and 4, 2 and 3, and 4 and 5.
    [1, 9, 9, 1, 18, 1, 50, 1, 0, 0],
    [2, 112, 112, 2 * RUN, 18, 4, 0, 0, 0, 0],
    [4, 50, 19, 1, 18, 1, 50, 1, 0, 0],
];

const ANCHORS: [[u64; 14]; 14] = [
    [5, 19, 19, 1, 0, 0, 0, 0, 0, 0, 0, 0, 0, 0],
    [5, 19, 21, 1, 0, 0, 0, 0, 0, 0, 0, 0, 0, 0],
    [5, 51, 18, 1, 0, 0, 0, 0, 0, 0, 0, 0, 0, 0],
    [0, 0, 18, 1, 51, A, 0, 0, 0, 0, 0, 0, 0, 0],
    [5, 51, 18, 1, 51, A, 52, 1, 0, 0, 0, 0, 0, 0],
    [0, 0, 18, 1, 51, A, 50, 2, 83, B, 0, 0, 0, 0],
    [5, 83, 18, 1, 51, A, 50, 2, 83, A, 0, 0, 0, 0],
    [5, 83, 18, 1, 51, B, 50, 2, 83, A, 0, 0, 0, 0],
    // The second words differ.
    [0, 0, 18, 1, 51, AS, 50, 2, 83, AS, 84, A, 0, 0],
    [5, 83, 18, 1, 51, AS, 52, A, 50, 2, 83, AS, 0, 0],
    // The list goes by node 2 and then by node 1: both anchors are wrong, then only the last.
    [5, 83, 18, 2, 82, 1, 0, 0, 0, 0, 0, 0, 0, 0],
    [5, 51, 18, 2, 82, 1, 83, A, 51, A, 0, 0, 0, 0],
    [0, 0, 18, 2, 82, 1, 83, A, 51, B, 0, 0, 0, 0],
    // It breaks rules 5 and 6.
    [5, 51, 18, 1, 17, 16, 0, 0, 0, 0, 0, 0, 0, 0],
];

/// What is wrong in both listed nodes is told of node 2, and what is wrong in the last is told too.
const NODES: [[u64; 14]; 10] = [
    [6, 81, 81, 16, 49, 16, 0, 0, 0, 0, 0, 0, 0, 0],
    [6, 49, 49, 16, 0, 0, 0, 0, 0, 0, 0, 0, 0, 0],
    [0, 0, 113, 16, 0, 0, 0, 0, 0, 0, 0, 0, 0, 0],
    [6, 96, 81, 1, 49, 16, 0, 0, 0, 0, 0, 0, 0, 0],
    [7, 88, 81, 1, 96, A, 49, 1, 64, B, 0, 0, 0, 0],
    [7, 56, 81, 1, 96, A, 88, 0x61, 49, 1, 64, B, 0, 0],
    [0, 0, 81, 1, 96, A, 88, 0x61, 49, 1, 64, B, 56, 0x62],
    // Rule 6 in the last node, and rule 7 in the one before.
    [6, 64, 81, 1, 96, A, 49, 1, 0, 0, 0, 0, 0, 0],
    // One name in two nodes breaks no rule.
    [0, 0, 81, 1, 96, A, 88, 0x61, 49, 1, 64, A, 56, 0x61],
    [8, 68, 49, 3, 64, B, 68, B, 56, 0x6262, 0, 0, 0, 0],
];

/// The log of one caller behind four nodes starts at word 144, and a line has eight words.
const LINES: [[u64; 12]; 15] = [
    // An open split, a ready merge into the last node, and an empty line that says anything.
    [0, 0, 144, 1, 145, 1, 146, 1, 147, A, 0, 0],
    [0, 0, 144, 2, 145, 2, 146, 3, 147, A, 150, 3],
    [0, 0, 145, 9, 146, 9, 147, 9, 150, 9, 151, 9],
    // Another state, no kind, another kind.
    [9, 144, 144, 3, 145, 1, 146, 1, 147, A, 0, 0],
    [9, 144, 144, 1, 145, 0, 146, 1, 147, A, 0, 0],
    [9, 144, 144, 1, 145, 3, 146, 1, 147, A, 0, 0],
    // Node 0, a node that isn't there, no name as anchor, no such left node, and something in the last word.
    [9, 144, 144, 1, 145, 1, 146, 0, 147, A, 0, 0],
    [9, 144, 144, 1, 145, 1, 146, 4, 147, A, 0, 0],
    [9, 144, 144, 1, 145, 1, 146, 1, 147, 0x20, 0, 0],
    [9, 144, 144, 1, 145, 1, 146, 1, 147, A, 150, 4],
    [9, 144, 144, 1, 145, 1, 146, 1, 147, A, 151, 1],
    // The last line, the first of two, and the word behind the log.
    [9, 200, 200, 3, 0, 0, 0, 0, 0, 0, 0, 0],
    [9, 152, 200, 3, 152, 3, 0, 0, 0, 0, 0, 0],
    [0, 0, 208, 3, 0, 0, 0, 0, 0, 0, 0, 0],
    // It breaks rules 8 and 9.
    [8, 36, 17, 3, 32, A, 36, A, 24, 0x6161, 144, 3],
];

#[test]
fn lists(rt: HostRuntime) {
    assert!(rt; first_other(rt.alloc(), &FOUR, &NEXTS).is_none());
    assert!(rt; first_other(rt.alloc(), &FOUR, &ANCHORS).is_none());
    assert!(rt; first_other(rt.alloc(), &LISTED, &NODES).is_none());
}

#[test]
fn log_lines(rt: HostRuntime) {
    assert!(rt; first_other(rt.alloc(), &FOUR, &LINES).is_none());
}

/// Nodes 0 and 2 have `a` and `b`, and node 1 has `b`.
const NAMED: [u64; 32] = [
    17, 3, 32, A, 35, 1, 36, B, 39, 2, 24, 0x6261, 81, 3, 96, B, 99, 3, 100, A, 103, 4, 88, 0x6162,
    49, 1, 64, B, 67, 5, 56, 0x62,
];

/// The number that a name has in the map of that image.
fn told_number(alloc: Global, letter: u8) -> Option<Option<u64>> {
    let image = image_with(alloc, &LISTED, &NAMED)?;
    let name = Name::read(&[letter]).ok()?;
    Some(number_in(&image, &name))
}

/// Each name counts where it belongs.
#[test]
fn reads_names_where_they_belong(rt: HostRuntime) {
    for (letter, want) in [(b'a', Some(4)), (b'b', Some(5)), (b'c', None), (b'Z', None)] {
        assert!(rt; told_number(rt.alloc(), letter) == Some(want));
    }
}
