//! The words of an image's nodes and of its log lines, for all who read images.

ghost use Rattle.std.specs.Prelude.{◌≡◌, ◌+◌, ◌*◌, ◌<◌, ◌≤◌, ◌↔◌, [], ◌∷◌, IsTrue};
ghost use Rattle.pm_words.specs.Layouts.{IsLayout, IsNodeCount};
ghost use Rattle.pm_words.specs.Locations.{node_words};
ghost use Rattle.pm_words.specs.Offsets.{bitmap_offset, anchor_offset, slot_offset};
ghost use Rattle.data_node.specs.Lists.{anchor_words};
ghost use Rattle.data_node.specs.Spots.{IsLiveIn, name_words, value_in};
ghost use Rattle.image_rules.specs.Nodes.{image_spot, next_in};
ghost use Rattle.image_rules.specs.Rules.{line_spot};

use cat_key::WORDS;
use data_node::is_live;
use pm_words::offsets::{line, node};
use pm_words::{Image, LOG_LINES, SLOT_WORDS};

/// How many nodes the image has.
pub fn node_count(image: &Image) -> u64
    ensures count { result ≡ image.now.layout.nodes }
    ensures range { IsNodeCount image.now.layout.nodes }
{
    image.layout().nodes()
}

/// How many slots each node has.
pub fn slot_count(image: &Image) -> u64
    ensures count { result ≡ image.now.layout.slots }
    ensures most { result ≤ 64 }
{
    image.layout().slots()
}

/// A word of a node by its offset, other than the version word; 0 where there is no such node.
pub fn node_word(image: &Image, node: u64, offset: u64) -> u64
    requires behind { 0 < offset }
    requires within { offset < node_words image.now.layout }
    ensures word { result ≡ image_spot image.now.layout image.now.words node offset }
    ensures layout { IsLayout image.now.layout }
{
    if image.layout().nodes() <= node {
        return 0;
    }
    image.word(image.layout().node_word(node, offset))
}

/// The node to which a node leads; 0 is none.
pub fn next_of(image: &Image, node: u64) -> u64
    ensures { result ≡ next_in image.now.layout image.now.words node }
{
    node_word(image, node, node::NEXT)
}

/// The bitmap of a node, with a bit for each slot.
pub fn bitmap_of(image: &Image, node: u64) -> u64
    ensures bitmap { result ≡ image_spot image.now.layout image.now.words node bitmap_offset }
    ensures limit { image.now.layout.slots ≤ 64 }
{
    node_word(image, node, node::BITMAP)
}

/// The words of a node's anchor.
pub fn anchor_of(image: &Image, node: u64) -> [u64; WORDS]
    ensures { result ≡ anchor_words (image_spot image.now.layout image.now.words node) }
{
    [
        node_word(image, node, node::ANCHOR),
        node_word(image, node, node::ANCHOR + 1),
        node_word(image, node, node::ANCHOR + 2),
    ]
}

/// Word k of a slot.
pub fn slot_word(image: &Image, node: u64, slot: u64, k: u64) -> u64
    requires slot { slot < image.now.layout.slots }
    requires word { k < 4 }
    ensures { result ≡ image_spot image.now.layout image.now.words node (slot_offset slot k) }
{
    let layout = image.layout();
    if layout.nodes() <= node {
        return 0;
    }
    image.word(layout.node_word(node, node::SLOTS + SLOT_WORDS * slot + k))
}

/// The words of the name in a slot.
pub fn name_in(image: &Image, node: u64, slot: u64) -> [u64; WORDS]
    requires slot { slot < image.now.layout.slots }
    ensures { result ≡ name_words (image_spot image.now.layout image.now.words node) slot }
{
    [
        slot_word(image, node, slot, 0),
        slot_word(image, node, slot, 1),
        slot_word(image, node, slot, 2),
    ]
}

/// The value in a slot.
pub fn value_in(image: &Image, node: u64, slot: u64) -> u64
    requires slot { slot < image.now.layout.slots }
    ensures { result ≡ value_in (image_spot image.now.layout image.now.words node) slot }
{
    slot_word(image, node, slot, WORDS as u64)
}

/// Whether a slot is live.
pub fn is_live_in(image: &Image, node: u64, slot: u64) -> bool
    requires slot { slot < image.now.layout.slots }
    ensures { IsTrue result ↔ IsLiveIn (image_spot image.now.layout image.now.words node) slot }
{
    is_live(bitmap_of(image, node), slot)
}

/// How many log lines there are.
pub fn line_count(image: &Image) -> u64
    ensures count { result ≡ 8 * image.now.layout.callers }
    ensures most { result ≤ 128 }
{
    LOG_LINES * image.layout().callers()
}

/// A word of a log line.
pub fn line_word(image: &Image, line: u64, offset: u64) -> u64
    requires line { line < 8 * image.now.layout.callers }
    requires offset { offset < 8 }
    ensures { result ≡ line_spot image.now.layout image.now.words line offset }
{
    image.word(
        image
            .layout()
            .line_word(line / LOG_LINES, line % LOG_LINES, offset),
    )
}

/// The words of the anchor that a log line tells.
pub fn line_anchor(image: &Image, line: u64) -> [u64; WORDS]
    requires { line < 8 * image.now.layout.callers }
    ensures { result ≡ line_spot image.now.layout image.now.words line anchor_offset
        ∷ line_spot image.now.layout image.now.words line (anchor_offset + 1)
        ∷ line_spot image.now.layout image.now.words line (anchor_offset + 2) ∷ [] }
{
    [
        line_word(image, line, line::ANCHOR),
        line_word(image, line, line::ANCHOR + 1),
        line_word(image, line, line::ANCHOR + 2),
    ]
}
