//! Images of which a word is changed: they are refused, or opened and played on.

ghost use Rattle.std.specs.Prelude.{◌≡◌};
ghost use Rattle.recovery.specs.index_core.specs.Lone.{IsQuiet};

use super::calls::{Asked, Scene, alone, made, name_of};
use image_layer_rules::first_broken_of_all;
use image_rules::Broken;
use pm_words::Image;
use pm_words::offsets::header;
use recovery::index_core::Core;
use recovery::{OpenFault, recover};
use std::alloc::Global;
use std::test::Fail;

/// How many names an index has, with the sum of their numbers.
fn sum(alloc: Global, core: &Core) -> [u64; 2] {
    let mut sum: u64 = 0;
    match core.pairs(alloc) {
        Ok(pairs) => {
            for pair in pairs.as_slice() {
                sum = sum.wrapping_add(pair.value);
            }
            [pairs.as_slice().len() as u64, sum]
        }
        Err(_) => [u64::MAX, 0],
    }
}

/// Whether an index has so many names with this sum, and takes the name of number 11, with the number 120.
fn is_played(alloc: Global, core: &mut Core, told: [u64; 2]) -> bool
    requires { IsQuiet core.old }
{
    if sum(alloc, core) != told {
        return false;
    }
    let [names, numbers] = told;
    alone(core, Asked::Put(11, 120));
    sum(alloc, core) == [names.wrapping_add(1), numbers.wrapping_add(120)]
}

/// A word of an image's bytes.
fn word_in(bytes: &[u8], word: u64) -> u64 {
    let (words, _) = bytes.as_chunks::<8>();
    match words.get(word as usize) {
        Some(found) => u64::from_le_bytes(*found),
        None => 0,
    }
}

/// The names of a sound image of two nodes of four slots, and the sum of their numbers: of node 0, which starts at word
/// 16, those below the anchor of node 1 where it leads there, and those of node 1, at word 48.
fn told_slowly(bytes: &[u8]) -> [u64; 2] {
    let leads = word_in(bytes, 18) == 1;
    let anchor = word_in(bytes, 51);
    let mut told = [0u64; 2];
    for slot in 0..4 {
        let name = word_in(bytes, 32 + 4 * slot);
        if word_in(bytes, 17) >> slot & 1 == 1 && !(leads && name >= anchor) {
            told = with_one(told, word_in(bytes, 35 + 4 * slot));
        }
        if word_in(bytes, 49) >> slot & 1 == 1 && leads {
            told = with_one(told, word_in(bytes, 67 + 4 * slot));
        }
    }
    told
}

fn with_one(told: [u64; 2], number: u64) -> [u64; 2] {
    let [names, numbers] = told;
    [names.wrapping_add(1), numbers.wrapping_add(number)]
}

/// Sets a word of bytes to a value.
pub(super) fn set_word(bytes: &mut [u8], word: u64, value: u64) {
    let (words, _) = bytes.as_chunks_mut::<8>();
    if let Some(found) = words.get_mut(word as usize) {
        *found = value.to_le_bytes();
    }
}

/// Whether bytes of an image are opened, with the names of a slow reading, and take one name more; or else are refused
/// for the rule that is told as the first broken one.
fn is_right(alloc: Global, bytes: &[u8]) -> Option<bool> {
    let image = Image::read(alloc, bytes).ok()?;
    let broken = first_broken_of_all(&image);
    match recover(alloc, image) {
        Ok(mut core) => {
            Some(broken.is_none() && is_played(alloc, &mut core, told_slowly(bytes)))
        }
        Err(OpenFault::Damaged { rule, word }) => Some(broken == Some(Broken { rule, word })),
        Err(_) => None,
    }
}

/// The bytes that a crash leaves of a catalogue of two nodes of four slots with five names: two stand in node 0, three in node 1, and the
/// log line of the split is READY.
pub(super) fn catalogue(alloc: Global) -> Option<Vec<u8>> {
    match made(alloc, Scene::new(2, 5, 0)) {
        Some(core) => core.crash().image.write(alloc).ok(),
        None => None,
    }
}

/// The first word of a catalogue, behind its layout, with which it isn't right where that has this value. Of its cells,
/// to which the root doesn't lead, few are tried.
fn first_wrong(alloc: Global, value: u64) -> Option<u64> {
    let Some(mut bytes) = catalogue(alloc) else {
        return Some(0);
    };
    for word in header::GENERATION..bytes.len() as u64 / 8 {
        if word < 384 || word % 97 == 0 {
            let before = word_in(&bytes, word);
            set_word(&mut bytes, word, value);
            if is_right(alloc, bytes.as_slice()) != Some(true) {
                return Some(word);
            }
            set_word(&mut bytes, word, before);
        }
    }
    None
}

#[test]
fn a_word_may_be_anything(rt: HostRuntime) -> Result<(), Fail> {
    // 15 makes dead slots live, one is the last generation but one, one the word of a name, and the last is drawn.
    let last = (1 << 24) - 2;
    let name = name_of(2).words()[0];
    for value in [0, 1, 15, last, name, u64::MAX, 5_873_298_142_507_639_211] {
        assert_eq!(rt; first_wrong(rt.alloc(), value), None);
    }
    Ok(())
}
