//! The rules on the header and on nodes.

use super::{A, B, Base, RUN, first_other};

/// One node of four slots.
const ONE: Base = Base {
    nodes: 1,
    slots: 4,
    words: &[],
    all: false,
};

const TEN_SLOTS: Base = Base { slots: 10, ..ONE };

const TWO: Base = Base { nodes: 2, ..ONE };

const HEADERS: [[u64; 4]; 9] = [
    [0, 0, 0, 0],
    [1, 5, 5, 0],
    [0, 0, 5, (1 << 24) - 1],
    [1, 5, 5, 1 << 24],
    [1, 6, 6, 1],
    [1, 7, 7, u64::MAX],
    [0, 0, 8, 1],
    [1, 9, 9, 1],
    [1, 15, 15, 1],
];

/// Node 1 of two starts at word 48.
const VERSIONS: [[u64; 6]; 7] = [
    [0, 0, 16, RUN + 3, 0, 0],
    [2, 16, 16, 2 * RUN, 0, 0],
    [2, 48, 48, 2 * RUN + 1, 0, 0],
    [2, 16, 16, 3 * RUN, 48, 3 * RUN],
    [0, 0, 5, 7, 48, 7 * RUN + 1],
    [2, 48, 5, 7, 48, 8 * RUN],
    // It breaks rules 1 and 2.
    [1, 15, 15, 1, 16, 2 * RUN],
];

/// The bitmap is word 17, and slot 0 has the words from 32 on.
const NAMES: [[u64; 8]; 8] = [
    [0, 0, 17, 1, 32, A, 24, 0x61],
    [0, 0, 17, 0, 32, 1, 36, 1],
    [6, 17, 17, 1 << 4, 0, 0, 0, 0],
    [6, 17, 17, (1 << 63) + 1, 32, A, 24, 0x61],
    [6, 32, 17, 1, 0, 0, 0, 0],
    [6, 32, 17, 1, 32, 0x20 << 56, 24, 0x20],
    [6, 44, 17, 0b1001, 32, A, 46, 1],
    // A byte stands behind the first zero.
    [6, 36, 17, 2, 36, A + 0x62, 24, 0x6100],
];

/// Of ten slots, slot 9 has the words from 68 on, and its fingerprint in word 25.
const PRINTS: [[u64; 8]; 6] = [
    [7, 24, 17, 1, 32, A, 24, 0],
    [7, 24, 17, 1, 32, B, 24, 0x61],
    [0, 0, 17, 1, 32, A, 24, 0x6161],
    [0, 0, 17, 1 << 9, 68, A, 25, 0x6100],
    [7, 25, 17, 1 << 9, 68, A, 24, 0x6100],
    [0, 0, 17, 1 << 9, 68, A + (B >> 8), 25, 135 << 8],
];

const REPEATED: [[u64; 14]; 8] = [
    [8, 36, 17, 3, 32, A, 36, A, 24, 0x6161, 0, 0, 0, 0],
    [0, 0, 17, 1, 32, A, 36, A, 24, 0x6161, 0, 0, 0, 0],
    [0, 0, 17, 3, 32, A, 36, B, 24, 0x6261, 0, 0, 0, 0],
    [8, 44, 17, 0b1101, 32, A, 40, B, 44, A, 24, 0x61620061, 0, 0],
    // Slots 2 and 3 repeat names: the lower one is told.
    [8, 40, 17, 15, 32, A, 36, B, 40, B, 44, A, 24, 0x6162_6261],
    // These break rules 7 and 8, rules 6 and 8, and rules 6 and 7.
    [7, 24, 17, 3, 32, A, 36, A, 24, 0x61, 0, 0, 0, 0],
    [6, 17, 17, 19, 32, A, 36, A, 24, 0x6161, 0, 0, 0, 0],
    [6, 32, 17, 3, 36, A, 0, 0, 0, 0, 0, 0, 0, 0],
];

#[test]
fn headers_and_versions(rt: HostRuntime) {
    assert!(rt; first_other(rt.alloc(), &ONE, &HEADERS).is_none());
    assert!(rt; first_other(rt.alloc(), &TWO, &VERSIONS).is_none());
}

#[test]
fn names_of_nodes(rt: HostRuntime) {
    assert!(rt; first_other(rt.alloc(), &ONE, &NAMES).is_none());
    assert!(rt; first_other(rt.alloc(), &TEN_SLOTS, &PRINTS).is_none());
    assert!(rt; first_other(rt.alloc(), &ONE, &REPEATED).is_none());
}
