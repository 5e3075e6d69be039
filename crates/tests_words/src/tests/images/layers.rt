//! The rules on the search layer, each at its borders, and which of two broken ones of all rules is told.

use super::trees::{BYTE_C, C_2, FORM_4, LEAF, LISTED};
use super::{A, AS, B, Base, C, first_other};

/// In an entry of a cell: the byte of `a`, above the reference.
const BYTE_A: u64 = 0x61 << 32;

const B_2: u64 = (0x62 << 32) + LEAF + 2;

/// A fresh image of four nodes. The leaves start at word 208, and a leaf has eight words: its key, and as the fourth
/// its node word. The root leads to leaf 0.
const FRESH: Base = Base {
    words: &[],
    ..LISTED
};

/// Of one node the leaves start at word 112, and the cells of 4 at word 152, whose entries are their words 4 to 7.
const ONE: Base = Base {
    nodes: 1,
    words: &[8, FORM_4, 156, LEAF, 157, BYTE_A + LEAF + 1, 120, A, 123, 1],
    ..LISTED
};

/// Of two nodes the leaves start at word 144, the cells of 4 at word 192, and the log at word 80.
const TWO: Base = Base {
    nodes: 2,
    words: &[
        18,
        1,
        51,
        A,
        152,
        A,
        155,
        2,
        8,
        FORM_4,
        196,
        LEAF,
        197,
        BYTE_A + LEAF + 1,
    ],
    ..LISTED
};

/// A line on a key of three words, and another key that leads to a node that isn't listed.
const LONG_KEYS: Base = Base {
    words: &[
        144,
        1,
        145,
        1,
        146,
        3,
        147,
        AS,
        148,
        AS,
        149,
        A,
        8,
        FORM_4,
        276,
        LEAF,
        277,
        BYTE_A + LEAF + 1,
        216,
        AS,
        219,
        4,
    ],
    ..LISTED
};

const LEAVES: [[u64; 8]; 14] = [
    [0, 0, 0, 0, 0, 0, 0, 0],
    // A node that there is, and isn't listed; the first that there isn't; the last number of all; none.
    [12, 8, 211, 4, 0, 0, 0, 0],
    [10, 8, 211, 5, 0, 0, 0, 0],
    [10, 8, 211, u64::MAX, 0, 0, 0, 0],
    [10, 8, 211, 0, 0, 0, 0, 0],
    // The last leaf.
    [10, 8, 8, LEAF + 7, 264, B, 267, 5],
    [12, 8, 8, LEAF + 7, 264, B, 267, 4],
    // No key: a byte behind the first zero, one that no name has, and words behind the first that isn't full.
    [10, 8, 208, A + 1, 0, 0, 0, 0],
    [10, 8, 208, 0x20 << 56, 0, 0, 0, 0],
    [10, 8, 208, A, 210, A, 0, 0],
    [10, 8, 210, 1, 0, 0, 0, 0],
    // Leaves to which the root doesn't lead may hold anything, and so may the words behind a node word.
    [0, 0, 216, 1, 219, 9, 267, 77],
    [0, 0, 212, 1, 213, 2, 215, 4],
    // A key of two words that no listed node has.
    [12, 8, 208, AS, 209, AS, 0, 0],
];

const COUNTS_OF_ONE: [[u64; 8]; 5] = [
    [11, 8, 0, 0, 0, 0, 0, 0],
    [11, 8, 157, BYTE_A + LEAF + 4, 144, A, 147, 1],
    [0, 0, 8, LEAF, 0, 0, 0, 0],
    // It breaks rules 10 and 11.
    [10, 8, 123, 2, 0, 0, 0, 0],
    // One key, which isn't zero.
    [12, 8, 8, LEAF + 1, 0, 0, 0, 0],
];

const COUNTS_OF_TWO: [[u64; 16]; 3] = [
    [0, 0, 0, 0, 0, 0, 0, 0, 0, 0, 0, 0, 0, 0, 0, 0],
    [11, 8, 160, B, 163, 2, 198, B_2, 0, 0, 0, 0, 0, 0, 0, 0],
    // A line that isn't EMPTY exempts the third key from rule 12, and not from rule 11.
    [11, 8, 160, B, 163, 2, 198, B_2, 80, 1, 81, 1, 82, 1, 83, B],
];

/// The root's cell has the entries of leaf 0 at word 276, of leaf 3 with `a` at word 277, and of leaf 1 with `b` at
/// word 278.
const COVERS: [[u64; 8]; 12] = [
    [0, 0, 0, 0, 0, 0, 0, 0],
    // A listed node to which no key leads: the first, one behind it, the last.
    [12, 8, 276, 0, 0, 0, 0, 0],
    [12, 8, 277, 0, 0, 0, 0, 0],
    [12, 8, 278, 0, 0, 0, 0, 0],
    // A leaf that leads its key to another listed node, to one that isn't listed, and to none before any.
    [12, 8, 219, 3, 0, 0, 0, 0],
    [12, 8, 219, 4, 0, 0, 0, 0],
    [12, 8, 211, 2, 0, 0, 0, 0],
    // A key that no listed node has as its anchor, in another leaf or in place of one that a node has.
    [12, 8, 224, C, 227, 4, 279, C_2],
    [12, 8, 216, C, 278, BYTE_C + LEAF + 1, 0, 0],
    // The nodes of two keys changed places.
    [12, 8, 235, 2, 219, 3, 0, 0],
    // The list without its last node.
    [12, 8, 82, 0, 0, 0, 0, 0],
    [0, 0, 82, 0, 278, 0, 0, 0],
];

/// The log starts at word 144, and its last line at word 200.
const LINES: [[u64; 16]; 9] = [
    // OPEN and READY lines on a key that is there and isn't an anchor, in the first and in the last line.
    [
        0, 0, 224, C, 227, 4, 279, C_2, 144, 1, 145, 1, 146, 3, 147, C,
    ],
    [
        0, 0, 224, C, 227, 4, 279, C_2, 200, 2, 201, 2, 202, 3, 203, C,
    ],
    // An EMPTY one, and one on another key.
    [
        12, 8, 224, C, 227, 4, 279, C_2, 144, 0, 145, 1, 146, 3, 147, C,
    ],
    [
        12, 8, 224, C, 227, 4, 279, C_2, 144, 1, 145, 1, 146, 3, 147, B,
    ],
    // On an anchor that doesn't lead, and on one that leads to another node.
    [0, 0, 278, 0, 0, 0, 0, 0, 144, 2, 145, 1, 146, 1, 147, B],
    [0, 0, 219, 3, 0, 0, 0, 0, 144, 2, 145, 1, 146, 1, 147, B],
    [12, 8, 277, 0, 0, 0, 0, 0, 144, 2, 145, 1, 146, 1, 147, B],
    [12, 8, 219, 3, 235, 2, 0, 0, 144, 2, 145, 1, 146, 1, 147, B],
    // It breaks rules 9 and 10.
    [9, 144, 8, 0, 0, 0, 0, 0, 144, 3, 145, 1, 146, 1, 147, B],
];

/// Keys that differ from the line's anchor in their second word, and in their third.
const KEYS: [[u64; 6]; 3] = [
    [0, 0, 217, AS, 218, A],
    [12, 8, 217, A, 218, 0],
    [12, 8, 217, AS, 218, B],
];

const FIRST_RULES: [[u64; 6]; 8] = [
    // Each but the last two breaks another rule and rule 10; those break rules 5 and 12, and 10 and 12.
    [1, 5, 5, 0, 8, 0],
    [2, 48, 48, 2 << 40, 8, 0],
    [3, 50, 50, 4, 8, 0],
    [4, 50, 50, 2, 8, 0],
    [5, 51, 51, 1, 8, 0],
    [6, 49, 49, 16, 8, 0],
    [5, 51, 51, 1, 278, 0],
    [10, 8, 217, 1, 277, 0],
];

#[test]
fn leaves_and_counts(rt: HostRuntime) {
    assert!(rt; first_other(rt.alloc(), &FRESH, &LEAVES).is_none());
    assert!(rt; first_other(rt.alloc(), &ONE, &COUNTS_OF_ONE).is_none());
    assert!(rt; first_other(rt.alloc(), &TWO, &COUNTS_OF_TWO).is_none());
}

#[test]
fn covers_and_lines(rt: HostRuntime) {
    assert!(rt; first_other(rt.alloc(), &LISTED, &COVERS).is_none());
    assert!(rt; first_other(rt.alloc(), &LISTED, &LINES).is_none());
    assert!(rt; first_other(rt.alloc(), &LONG_KEYS, &KEYS).is_none());
}

#[test]
fn first_rules(rt: HostRuntime) {
    assert!(rt; first_other(rt.alloc(), &LISTED, &FIRST_RULES).is_none());
}
