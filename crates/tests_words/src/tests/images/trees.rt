//! The rules on the tree of the search layer, each damage of a tree with its rule and word.

use super::{A, AS, B, Base, C, first_other};

/// References, by their kinds: a leaf, and cells of the four forms.
pub(super) const LEAF: u64 = 1 << 16;

const LEAF_1: u64 = LEAF + 1;

const LEAF_3: u64 = LEAF + 3;

pub(super) const FORM_4: u64 = 2 << 16;

const FORM_16: u64 = 3 << 16;

const FORM_48: u64 = 4 << 16;

pub(super) const FORM_256: u64 = 5 << 16;

/// In an entry the branch byte stands above the reference: that of `c`.
pub(super) const BYTE_C: u64 = 0x63 << 32;

/// The entries of leaf 3 below the byte of `a`, of leaf 1 below that of `b`, of leaf 2 below that of `c`, and of leaf 4
/// below that of `d`.
const A_3: u64 = (0x61 << 32) + LEAF_3;

pub(super) const B_1: u64 = (0x62 << 32) + LEAF_1;

pub(super) const C_2: u64 = BYTE_C + LEAF + 2;

const D_4: u64 = (0x64 << 32) + LEAF + 4;

/// The words of the one-byte name `d`.
const D: u64 = 0x64 << 56;

/// Of four nodes: the list goes by node 2, whose anchor is `a`, and then by node 1, whose anchor is `b`; leaf 3 leads
/// `a` to node 2, and leaf 1 leads `b` to node 1. The root is a cell of 4, at word 272, with these and leaf 0, which
/// leads zero to node 0.
pub(super) const LISTED: Base = Base {
    nodes: 4,
    slots: 4,
    words: &[
        18, 2, 83, A, 82, 1, 51, B, 232, A, 235, 3, 216, B, 219, 2, 8, FORM_4, 276, LEAF, 277, A_3,
        278, B_1,
    ],
    all: true,
};

/// The same with a cell of 16, at word 336, of 48, at word 528, and of 256, at word 1232.
const LISTED_16: Base = Base {
    words: &[
        18, 2, 83, A, 82, 1, 51, B, 232, A, 235, 3, 216, B, 219, 2, 8, FORM_16, 344, LEAF, 345,
        A_3, 359, B_1,
    ],
    ..LISTED
};

const LISTED_48: Base = Base {
    words: &[
        18, 2, 83, A, 82, 1, 51, B, 232, A, 235, 3, 216, B, 219, 2, 8, FORM_48, 536, 1, 548,
        0x3_0200, 568, LEAF, 569, LEAF_3, 570, LEAF_1,
    ],
    ..LISTED
};

const LISTED_256: Base = Base {
    words: &[
        18, 2, 83, A, 82, 1, 51, B, 232, A, 235, 3, 216, B, 219, 2, 8, FORM_256, 1240, LEAF, 1337,
        LEAF_3, 1338, LEAF_1,
    ],
    ..LISTED
};

/// The anchors of nodes 2 and 1 have 24 bytes and differ in the last one. The root's cell leads to another cell, at
/// word 280, that is as deep as a cell may be.
const DEEPEST: Base = Base {
    words: &[
        18, 2, 83, AS, 84, AS, 85, AS, 82, 1, 51, AS, 52, AS, 53, AS_1, 232, AS, 233, AS, 234, AS,
        235, 3, 216, AS, 217, AS, 218, AS_1, 219, 2, 8, FORM_4, 276, LEAF, 277, A_CELL, 280, 23,
        281, AS, 282, AS, 283, AS_0, 284, A_3, 285, B_1,
    ],
    ..LISTED
};

/// A word whose last byte is one more than those of `AS`, and one where it is zero.
const AS_1: u64 = AS + 1;

const AS_0: u64 = AS - 0x61;

/// The entry of that cell below the byte of `a`.
const A_CELL: u64 = (0x61 << 32) + FORM_4 + 1;

/// Leaves start at word 208, and cells of 4 at word 272; each has eight words.
const TREES: [[u64; 6]; 22] = [
    [0, 0, 0, 0, 0, 0],
    // The root: none, a leaf and a cell that there isn't, a kind that there isn't, one leaf alone.
    [10, 8, 8, 0, 0, 0],
    [10, 8, 8, LEAF + 8, 0, 0],
    [10, 8, 8, FORM_4 + 8, 0, 0],
    [10, 8, 8, 6 << 16, 0, 0],
    [12, 8, 8, LEAF, 0, 0],
    // A depth that is too large, or larger than what the children share; a prefix past its depth.
    [10, 8, 272, 24, 0, 0],
    [10, 8, 272, 1, 0, 0],
    [10, 8, 273, 1, 0, 0],
    // An entry with the byte of another, with a wrong one, without a reference; a cell with one child.
    [10, 8, 279, B_1, 0, 0],
    [10, 8, 278, BYTE_C + LEAF + 1, 0, 0],
    [10, 8, 279, BYTE_C, 0, 0],
    [10, 8, 277, 0, 278, 0],
    // A leaf, and the cell itself, that is reached twice.
    [10, 8, 279, BYTE_C + LEAF + 1, 0, 0],
    [10, 8, 279, BYTE_C + FORM_4, 0, 0],
    // A leaf without a node, with one that there isn't, and without a key. What isn't reached may be anything.
    [10, 8, 219, 0, 0, 0],
    [10, 8, 219, 5, 0, 0],
    [10, 8, 217, 1, 0, 0],
    [0, 0, 240, 1, 243, 77],
    // A key that leads to another listed node, one that doesn't lead, and one that leads and isn't listed.
    [12, 8, 219, 3, 0, 0],
    [12, 8, 278, 0, 0, 0],
    [12, 8, 219, 4, 0, 0],
];

const FORMS_16: [[u64; 4]; 3] = [[0, 0, 0, 0], [10, 8, 340, 1], [10, 8, 346, B_1]];

const FORMS_48: [[u64; 4]; 6] = [
    [0, 0, 0, 0],
    [10, 8, 535, 1],
    // The places of `a` and `b` are 2 and 3; then they are one, one that there isn't, one without a reference.
    [10, 8, 548, 0x2_0200],
    [10, 8, 548, 0x31_0200],
    [10, 8, 548, 0x4_0200],
    // A place that no byte has may hold anything.
    [0, 0, 615, 7],
];

const FORMS_256: [[u64; 4]; 3] = [[0, 0, 0, 0], [10, 8, 1239, 1], [10, 8, 1495, LEAF + 1]];

const DEEP: [[u64; 4]; 8] = [
    [0, 0, 0, 0],
    // A depth less, and one that is too large; a prefix with another first byte, another last one, and one more.
    [10, 8, 280, 22],
    [10, 8, 280, 24],
    [10, 8, 281, AS + (1 << 56)],
    [10, 8, 283, AS - 0x61 + 0x100],
    [10, 8, 283, AS],
    // An entry with another byte, and with a number that is no byte.
    [10, 8, 285, BYTE_C + LEAF + 1],
    [10, 8, 285, (0x162 << 32) + LEAF + 1],
];

/// A fourth key, and a fifth.
const COUNTS: [[u64; 14]; 2] = [
    [12, 8, 347, C_2, 224, C, 227, 1, 0, 0, 0, 0, 0, 0],
    [11, 8, 347, C_2, 224, C, 227, 1, 348, D_4, 240, D, 243, 1],
];

/// The byte of zero leads to a cell that is no deeper than the root's.
const AS_DEEP: [[u64; 12]; 1] = [[10, 8, 276, FORM_4 + 1, 284, LEAF, 285, D_4, 240, D, 243, 1]];

#[test]
fn trees(rt: HostRuntime) {
    assert!(rt; first_other(rt.alloc(), &LISTED, &TREES).is_none());
    assert!(rt; first_other(rt.alloc(), &DEEPEST, &DEEP).is_none());
    assert!(rt; first_other(rt.alloc(), &LISTED, &AS_DEEP).is_none());
}

#[test]
fn forms(rt: HostRuntime) {
    assert!(rt; first_other(rt.alloc(), &LISTED_16, &FORMS_16).is_none());
    assert!(rt; first_other(rt.alloc(), &LISTED_48, &FORMS_48).is_none());
    assert!(rt; first_other(rt.alloc(), &LISTED_256, &FORMS_256).is_none());
}

#[test]
fn counts(rt: HostRuntime) {
    assert!(rt; first_other(rt.alloc(), &LISTED_16, &COUNTS).is_none());
}
