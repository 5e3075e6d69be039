//! The bitmap of a node without the slots whose names are out of its range.

ghost use Rattle.std.specs.Prelude.{◌≡◌, ℕ, ◌<◌, ◌↔◌, IsTrue};
ghost use Rattle.data_node.specs.Lists.{IsBetween, number_of};
ghost use Rattle.image_rules.specs.Nodes.{image_spot, next_in, IsListedNode};
ghost use Rattle.image_rules.specs.Sound.{IsSound};
ghost use Rattle.image_recovery_law.specs.Moves.{TrimsNode};
ghost use Rattle.image_recovery.specs.Plans.{columns, list_of, IsKept};

use cat_key::WORDS;
use data_node::{is_below, is_live, with_live};
use image_rules::read::{anchor_of, bitmap_of, name_in, next_of, slot_count};
use pm_words::Image;

/// Whether a key isn't below a node's anchor, and is below that of the next node.
fn is_between(image: &Image, node: u64, key: [u64; WORDS]) -> bool
    ensures { IsTrue result ↔ IsBetween (image_spot image.now.layout image.now.words node)
        (image_spot image.now.layout image.now.words (next_in image.now.layout image.now.words node)) (number_of key) }
{
    if is_below(&key, &anchor_of(image, node)) {
        return false;
    }
    let next = next_of(image, node);
    next == 0 || is_below(&key, &anchor_of(image, next))
}

/// Whether a slot is live, and its name is in the range of the node.
fn is_kept(image: &Image, node: u64, slot: u64) -> bool
    requires slot { slot < image.now.layout.slots }
    requires most { slot < 64 }
    ensures { IsTrue result ↔ IsKept image.now node slot }
{
    is_live(bitmap_of(image, node), slot) && is_between(image, node, name_in(image, node, slot))
}

/// The bitmap of a listed node without the slots whose names are out of its range.
pub(crate) fn trimmed(image: &Image, node: u64) -> u64
    requires sound { IsSound image.now.layout image.now.words }
    requires listed { IsListedNode image.now.layout image.now.words node }
    ensures { TrimsNode image.now.layout (list_of image.now) (columns image.now) node result }
{
    let mut bits = 0;
    for slot in 0..slot_count(image) {
        if is_kept(image, node, slot) {
            bits = with_live(bits, slot);
        }
    }
    bits
}
