//! The stores into the image that change it, in their order, of a put that splits, of a delete that merges, and of the
//! turns of the updater behind them, as docs/SPLITS.md and docs/MERGES.md draw them.

use super::calls::Asked::{Del, Put, Turn};
use super::calls::{Asked, MANY, Scene, begin, made, run};
use pm_words::Image;
use pm_words::codes::reference;
use pm_words::offsets::{leaf, line, node};
use recovery::index_core::Core;
use std::alloc::Global;

/// Of an image so many words are looked at: those of nodes and lines, and of two nodes the first leaves and cells.
const LOOKED: u64 = 400;

/// Makes those words durable.
fn evict_all(core: &mut Core) {
    for word in 0..LOOKED {
        if word < core.layout().image_words() {
            core.evict(word);
        }
    }
}

/// The image after so many events of a call, each word as it was stored last; and whether the call is answered.
fn stored(alloc: Global, scene: Scene, asked: Asked, events: u64) -> Option<(Image, bool)> {
    let mut core = made(alloc, scene)?;
    begin(&mut core, 0, asked);
    let answered = run(&mut core, 0, events).is_some();
    evict_all(&mut core);
    Some((core.crash().image, answered))
}

/// A word of an image, or 0 where it has none there.
fn word_of(image: &Image, word: u64) -> u64 {
    if word < image.layout().image_words() {
        return image.word(word);
    }
    0
}

/// The first word in which two images differ, and what the second one has there.
fn changed(first: &Image, second: &Image) -> Option<[u64; 2]> {
    for word in 0..LOOKED {
        let found = word_of(second, word);
        if word_of(first, word) != found {
            return Some([word, found]);
        }
    }
    None
}

/// Whether a call makes just these stores that change a word of the image, each of this word at this place, in this
/// order.
fn makes(alloc: Global, scene: Scene, asked: Asked, wanted: &[[u64; 2]]) -> Option<bool> {
    let mut left = wanted.iter();
    let (mut before, _) = stored(alloc, scene, asked, 0)?;
    for events in 1..MANY {
        let (after, is_answered) = stored(alloc, scene, asked, events)?;
        if let Some(store) = changed(&before, &after) {
            if left.next() != Some(&store) {
                return Some(false);
            }
        }
        if is_answered {
            return Some(left.next().is_none());
        }
        before = after;
    }
    None
}

/// The first version word of the second generation, which is free.
const FREE: u64 = 2 << 40;

/// Where the words of nodes of four slots begin, and behind them, by how many nodes there are, those of the lines.
const NODE_0: u64 = 16;

const NODE_1: u64 = NODE_0 + 32;

const NODE_2: u64 = NODE_1 + 32;

const LINES_OF_2: u64 = NODE_2;

const LINES_OF_3: u64 = LINES_OF_2 + 32;

const LINES_OF_4: u64 = LINES_OF_3 + 32;

/// The second line of caller 0 on three nodes, and the third one on four.
const SPLIT_LINE: u64 = LINES_OF_3 + 8;

const MERGE_LINE: u64 = LINES_OF_4 + 16;

/// The first words of names by their numbers.
const NAME_2: u64 = 0x2123 << 48;

const NAME_4: u64 = 0x2125 << 48;

const NAME_5: u64 = 0x2126 << 48;

/// Names 2 to 5 stand in node 1, which was locked three times. The lock, and that of node 2; its names, fingerprints,
/// bitmap and anchor, and no next node; the second line with its fields, OPEN; the switch; the bitmap of node 1; READY;
/// and both given back.
const SPLIT: [[u64; 2]; 19] = [
    [NODE_1 + node::VERSION, FREE + 7],
    [NODE_2 + node::VERSION, FREE + 1],
    [NODE_2 + node::SLOTS, NAME_4],
    [NODE_2 + node::SLOTS + 3, 4],
    [NODE_2 + node::SLOTS + 4, NAME_5],
    [NODE_2 + node::SLOTS + 7, 5],
    [NODE_2 + node::PRINTS, 0x9390],
    [NODE_2 + node::BITMAP, 0b11],
    [NODE_2 + node::ANCHOR, NAME_4],
    [SPLIT_LINE + line::KIND, 1],
    [SPLIT_LINE + line::NODE, 2],
    [SPLIT_LINE + line::ANCHOR, NAME_4],
    [SPLIT_LINE + line::LEFT, 1],
    [SPLIT_LINE + line::STATE, 1],
    [NODE_1 + node::NEXT, 2],
    [NODE_1 + node::BITMAP, 0b11],
    [SPLIT_LINE + line::STATE, 2],
    [NODE_2 + node::VERSION, FREE + 2],
    [NODE_1 + node::VERSION, FREE + 8],
];

/// Names 0 and 1 stand in node 0, and name 2 in node 1; both were locked five times. The lock, the bitmap without name
/// 1, and the other lock; the third line with its fields, of which the left node is 0, OPEN; name 2 in the clear slot
/// with its fingerprint; the bitmap with it; the switch to node 2; READY; and both given back.
const MERGE: [[u64; 2]; 15] = [
    [NODE_0 + node::VERSION, FREE + 11],
    [NODE_0 + node::BITMAP, 0b1],
    [NODE_1 + node::VERSION, FREE + 11],
    [MERGE_LINE + line::KIND, 2],
    [MERGE_LINE + line::NODE, 1],
    [MERGE_LINE + line::ANCHOR, NAME_2],
    [MERGE_LINE + line::STATE, 1],
    [NODE_0 + node::SLOTS + 4, NAME_2],
    [NODE_0 + node::SLOTS + 7, 2],
    [NODE_0 + node::PRINTS, 0x8D8A_8A84],
    [NODE_0 + node::BITMAP, 0b11],
    [NODE_0 + node::NEXT, 2],
    [MERGE_LINE + line::STATE, 2],
    [NODE_1 + node::VERSION, FREE + 12],
    [NODE_0 + node::VERSION, FREE + 12],
];

/// Of the layer of two nodes and four callers: leaves begin behind the lines, and cells of form 4 behind six leaves.
const LEAF_1: u64 = LINES_OF_2 + 4 * 64 + 8;

const CELL_0: u64 = LEAF_1 + 5 * 8;

const ROOT: u64 = 8;

const LEAF: u64 = reference::LEAF * reference::KIND;

/// Behind a split: the second leaf leads its anchor to node 1, and the first cell has both leaves, the first under byte
/// 0; the root refers to that cell, and the line is EMPTY.
const BEHIND_SPLIT: [[u64; 2]; 6] = [
    [LEAF_1, NAME_2],
    [LEAF_1 + leaf::NODE, 2],
    [CELL_0 + 4, LEAF],
    [CELL_0 + 5, (0x21 << 32) + LEAF + 1],
    [ROOT, 2 * reference::KIND],
    [LINES_OF_2 + line::STATE, 0],
];

/// Behind a merge: the root refers to the first leaf again, and the line is EMPTY.
const BEHIND_MERGE: [[u64; 2]; 2] = [[ROOT, LEAF], [LINES_OF_2 + line::STATE, 0]];

#[test]
fn a_split_stores_in_order(rt: HostRuntime) {
    let split = makes(rt.alloc(), Scene::new(3, 6, 0), Put(6, 70), &SPLIT);
    assert!(rt; split == Some(true));
}

#[test]
fn a_merge_stores_in_order(rt: HostRuntime) {
    let merge = makes(rt.alloc(), Scene::new(4, 7, 0b1000), Del(1), &MERGE);
    assert!(rt; merge == Some(true));
}

#[test]
fn turns_store_in_order(rt: HostRuntime) {
    let split = Scene::new(2, 5, 0);
    assert!(rt; makes(rt.alloc(), split, Turn(1), &BEHIND_SPLIT) == Some(true));
    let merged = Scene {
        turned: true,
        ..Scene::new(2, 5, 0b11010)
    };
    assert!(rt; makes(rt.alloc(), merged, Turn(1), &BEHIND_MERGE) == Some(true));
}
