//! Version words and their locks, counted by hand.

use version_lock::{GENERATION_LIMIT, LAST_COUNT, is_free, locked_of};

const RUN: u64 = 1 << 40;

/// The word of a node that is worn in generation 3.
const WORN: u64 = 3 * RUN + 2 * LAST_COUNT;

/// A word, a generation, and the word that locks it in that; 0 where it isn't free, and 2 where it is worn.
const ROWS: [[u64; 3]; 13] = [
    [0, 0, 1],
    [0, 2, 2 * RUN + 1],
    [1, 0, 0],
    [1, 1, RUN + 1],
    [14, 0, 15],
    [RUN + 14, 1, RUN + 15],
    [RUN + 15, 1, 0],
    [RUN + 14, 2, 2 * RUN + 1],
    [RUN + 15, 2, 2 * RUN + 1],
    [WORN - 2, 3, WORN - 1],
    [WORN - 1, 3, 0],
    [WORN, 3, 2],
    [WORN, 4, 4 * RUN + 1],
];

/// What locks a word of this generation or an earlier one.
fn lock_of(word: u64, generation: u64) -> u64 {
    if word / RUN > generation || generation >= GENERATION_LIMIT || !is_free(word, generation) {
        return 0;
    }
    locked_of(word, generation).unwrap_or(2)
}

#[test]
fn free_words_are_locked(rt: HostRuntime) {
    for [word, generation, lock] in ROWS {
        assert!(rt; lock_of(word, generation) == lock);
    }
}
