//! How many leaves a tree in order has.

ghost use Rattle.std.specs.Prelude.{◌≢◌, ◌≤◌, MatchOption};
ghost use Rattle.tree_law.specs.Trees.{depth_of};
ghost use Rattle.tree_law.specs.Words.{reference_of};
ghost use Rattle.image_layer_rules.specs.Faults.{image_tree};
ghost use Rattle.image_layer_rules.specs.Checks.{IsWrongFrom};
ghost use Rattle.image_layer_rules.specs.Counts.{HasMore, LeavesRoom};

use crate::children::{BYTES, child_of};
use crate::words::{cell_word, read_cell};
use pm_words::Image;
use pm_words::codes::reference::{KIND, LEAF};
use pm_words::offsets::cell::DEPTH;

/// How many more leaves there is room for behind those below a reference, of which it is known how deep at least it
/// has to be; `None` where those are more than there is room for.
pub(crate) fn room_behind(image: &Image, reference: u64, least: u64, room: u64) -> Option<u64>
    requires least { least ≤ depth_of (image_tree image.now.layout image.now.words) (reference_of reference) }
    requires right { reference ≢ 0 → ¬ IsWrongFrom image.now.layout image.now.words (reference_of reference) }
    ensures { MatchOption result (HasMore image.now.layout image.now.words reference least room)
        (LeavesRoom image.now.layout image.now.words reference least room) }
{
    if reference == 0 {
        return Some(room);
    }
    if reference / KIND == LEAF {
        if room == 0 {
            return None;
        }
        return Some(room - 1);
    }
    let cell = read_cell(image, reference);
    let next = cell_word(image, reference, DEPTH) + 1;
    let mut left = room;
    for byte in 0..BYTES {
        let child = child_of(&cell, byte);
        let Some(rest) = room_behind(image, child, next, left) else {
            return None;
        };
        left = rest;
    }
    Some(left)
}
