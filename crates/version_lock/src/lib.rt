//! The version word of a node, which is its lock as well.
//!
//! Bit 0 is set while a party has the node locked. Bits 1 to 39 count how often the lock was given
//! back, and bits 40 to 63 hold the generation, the number of the run that wrote the word. A lock
//! that an earlier run left behind is free, so that nobody waits for a party that is gone.
//!
//! While one run lasts a node's word only rises. A reader that finds the same word twice therefore
//! knows that nobody had the lock in between.
#![tactic(auto)]

ghost use Rattle.std.specs.Prelude.{◌≡◌, ◌+◌, ◌^◌, ◌<◌, ◌≤◌, ◌↔◌, IsTrue, IsNone, IfSome};
ghost use Rattle.version_lock.specs.Versions.{generation_of, count_of, kept_count, version_word, locked_word, IsLocked};
ghost use Rattle.version_lock.specs.Versions.{IsFree, IsWorn, FreeWordsTold, WornWordsTold};
ghost use Rattle.version_lock.specs.Histories.{WordsRise};

/// What one generation adds to a word: the generation stands from bit 40 on.
pub const GENERATION_UNIT: u64 = 1 << 40;

/// Generations stay below this number, which is the first that does not fit into a word.
pub const GENERATION_LIMIT: u64 = 1 << 24;

/// The greatest count. A node that has reached it in this generation is worn.
pub const LAST_COUNT: u64 = (1 << 39) - 1;

/// The generation in a word.
pub fn generation_in(word: u64) -> u64
    ensures { result ≡ generation_of word }
{
    word / GENERATION_UNIT
}

/// The count with which a lock that is taken in `generation` begins.
fn count_kept(word: u64, generation: u64) -> u64
    ensures { result ≡ kept_count word generation }
{
    if generation_in(word) < generation {
        0
    } else {
        word % GENERATION_UNIT / 2
    }
}

/// Whether nobody has the node locked in `generation`. A lock of an earlier generation is free.
pub fn is_free(word: u64, generation: u64) -> bool
    ensures { IsTrue result ↔ IsFree word generation }
{
    generation_in(word) < generation || word % 2 == 0
}

/// The word that locks the node in `generation`, or None where the node is worn: its count has come to
/// its end, and no lock can be taken before the next generation.
pub fn locked_of(word: u64, generation: u64) -> Option<u64>
    requires in_range { generation < GENERATION_LIMIT }
    requires known { generation_of word ≤ generation }
    requires free { IsFree word generation }
    ensures worn { IsNone result ↔ IsWorn word generation }
    ensures locked { IfSome result (λ locked. locked ≡ locked_word generation (kept_count word generation)) }
{
    let count = count_kept(word, generation);
    if count == LAST_COUNT {
        None
    } else {
        Some(generation * GENERATION_UNIT + count * 2 + 1)
    }
}

/// The word with which the party that has the node locked gives the lock back.
pub fn freed_of(word: u64) -> u64
    requires locked { IsLocked word }
    requires unworn { count_of word < LAST_COUNT }
    ensures next { result ≡ word + 1 }
    ensures freed { result ≡ version_word (generation_of word) (count_of word + 1) }
{
    word + 1
}

/// The law of the words of a node in one generation: each is greater than all that were there before.
pub fn words_rise()
    ensures { WordsRise }
{}

/// The law of the tests of a word, whether it is free and whether it is worn.
pub fn words_told()
    ensures free { FreeWordsTold }
    ensures worn { WornWordsTold }
{}
