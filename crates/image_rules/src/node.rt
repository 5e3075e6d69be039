//! The slots of a node that break a rule.

ghost use Rattle.std.specs.Prelude.{◌≡◌, ℕ, ◌<◌, ◌≤◌, ◌^◌, ◌↔◌, IsTrue, IfSome};
ghost use Rattle.pm_words.specs.Layouts.{IsLayout};
ghost use Rattle.pm_words.specs.Locations.{Node, node_words, word_number};
ghost use Rattle.pm_words.specs.Offsets.{bitmap_offset, print_offset, slot_offset};
ghost use Rattle.data_node.specs.Lists.{anchor_in, anchor_words};
ghost use Rattle.data_node.specs.Spots.{IsLiveIn, name_words, value_in};
ghost use Rattle.data_node.specs.Spots.{print_in_spot};
ghost use Rattle.image_rules.specs.Lowest.{IsLowest};
ghost use Rattle.image_rules.specs.Nodes.{image_spot, next_in, HasWords};
ghost use Rattle.image_rules.specs.Rules.{IsNameless, IsMisprinted, IsRepeated};

use crate::read::{is_live_in, name_in, node_word, slot_count};
use cat_key::{Name, WORDS};
use data_node::{MAX_SLOTS, print_at};
use pm_words::offsets::node;
use pm_words::{Image, SLOT_WORDS};

/// How many slots have their fingerprints in one word.
const PRINTS_PER_WORD: u64 = 8;

/// The number of a node's word in the image.
pub(crate) fn number_of(image: &Image, node: u64, offset: u64) -> u64
    requires node { node < image.now.layout.nodes }
    requires within { offset < node_words image.now.layout }
    ensures { result ≡ word_number image.now.layout (Node node offset) }
{
    image.layout().node_word(node, offset)
}

/// The offset of a slot's first word.
pub(crate) fn slot_start(slot: u64) -> u64
    requires { slot < 64 }
    ensures { result ≡ slot_offset slot 0 }
{
    node::SLOTS + SLOT_WORDS * slot
}

/// The offset of the word with a slot's fingerprint.
pub(crate) fn print_start(slot: u64) -> u64
    ensures { result ≡ print_offset slot }
{
    node::PRINTS + slot / PRINTS_PER_WORD
}

/// The fingerprint of a slot.
fn print_of(image: &Image, node: u64, slot: u64) -> u8
    requires node { node < image.now.layout.nodes }
    requires slot { slot < image.now.layout.slots }
    ensures { result ≡ print_in_spot (image_spot image.now.layout image.now.words node) slot }
{
    print_at(node_word(image, node, print_start(slot)), slot)
}

/// Whether a bitmap has a bit from so many slots on.
pub(crate) fn has_bits_past(bitmap: u64, slots: u64) -> bool
    requires { slots ≤ 64 }
    ensures { IsTrue result ↔ (2 ^ slots ≤ bitmap) }
{
    slots < MAX_SLOTS && bitmap >> slots != 0
}

/// Whether a slot is live and has no name.
fn is_nameless(image: &Image, node: u64, slot: u64) -> bool
    requires node { node < image.now.layout.nodes }
    requires slot { slot < image.now.layout.slots }
    ensures { IsTrue result ↔
        IsNameless image.now.layout.slots (image_spot image.now.layout image.now.words node) slot }
{
    is_live_in(image, node, slot) && Name::of_words(name_in(image, node, slot)).is_none()
}

/// Whether a slot has a name, and the fingerprint of another.
fn is_misprinted(image: &Image, node: u64, slot: u64) -> bool
    requires node { node < image.now.layout.nodes }
    requires slot { slot < image.now.layout.slots }
    ensures { IsTrue result ↔ IsMisprinted image.now.layout.slots (image_spot image.now.layout image.now.words node)
        slot }
{
    if !is_live_in(image, node, slot) {
        return false;
    }
    match Name::of_words(name_in(image, node, slot)) {
        Some(name) => name.fingerprint() != print_of(image, node, slot),
        None => false,
    }
}

/// Whether two slots are live and have the same words where their names stand.
fn are_alike(image: &Image, node: u64, lower: u64, slot: u64) -> bool
    requires node { node < image.now.layout.nodes }
    requires lower { lower < image.now.layout.slots }
    requires slot { slot < image.now.layout.slots }
    ensures { IsTrue result ↔ (IsLiveIn (image_spot image.now.layout image.now.words node) lower
        × IsLiveIn (image_spot image.now.layout image.now.words node) slot
        × (name_words (image_spot image.now.layout image.now.words node) lower
        ≡ name_words (image_spot image.now.layout image.now.words node) slot)) }
{
    is_live_in(image, node, lower)
        && is_live_in(image, node, slot)
        && name_in(image, node, lower) == name_in(image, node, slot)
}

/// Whether a slot is live and has these words where its name stands.
fn has_words(image: &Image, node: u64, slot: u64, words: [u64; WORDS]) -> bool
    requires node { node < image.now.layout.nodes }
    requires slot { slot < image.now.layout.slots }
    ensures { IsTrue result ↔ HasWords image.now.layout.slots (image_spot image.now.layout image.now.words node) words
        slot }
{
    is_live_in(image, node, slot) && name_in(image, node, slot) == words
}

/// The lowest live slot that has these words where its name stands.
pub(crate) fn slot_with(image: &Image, node: u64, words: [u64; WORDS]) -> Option<u64>
    requires { node < image.now.layout.nodes }
    ensures lowest { IsLowest (HasWords image.now.layout.slots (image_spot image.now.layout image.now.words node)
        words) result }
{
    (0..slot_count(image)).find(|slot| has_words(image, node, *slot, words))
}

/// Whether a slot is live, and a lower live slot has its name.
fn is_repeated(image: &Image, node: u64, slot: u64) -> bool
    requires node { node < image.now.layout.nodes }
    requires slot { slot < image.now.layout.slots }
    ensures { IsTrue result ↔
        IsRepeated image.now.layout.slots (image_spot image.now.layout image.now.words node) slot }
{
    for lower in 0..slot {
        if are_alike(image, node, lower, slot) {
            return true;
        }
    }
    false
}

/// The lowest live slot without a name.
pub(crate) fn nameless_slot(image: &Image, node: u64) -> Option<u64>
    requires { node < image.now.layout.nodes }
    ensures lowest { IsLowest (IsNameless image.now.layout.slots (image_spot image.now.layout image.now.words node))
        result }
    ensures bound { IfSome result (λ slot. slot < 64) }
{
    (0..slot_count(image)).find(|slot| is_nameless(image, node, *slot))
}

/// The lowest live slot with another fingerprint than that of its name.
pub(crate) fn misprinted_slot(image: &Image, node: u64) -> Option<u64>
    requires { node < image.now.layout.nodes }
    ensures lowest { IsLowest (IsMisprinted image.now.layout.slots (image_spot image.now.layout image.now.words node))
        result }
    ensures bound { IfSome result (λ slot. slot < 64) }
{
    (0..slot_count(image)).find(|slot| is_misprinted(image, node, *slot))
}

/// The lowest live slot whose name a lower live slot has.
pub(crate) fn repeated_slot(image: &Image, node: u64) -> Option<u64>
    requires { node < image.now.layout.nodes }
    ensures lowest { IsLowest (IsRepeated image.now.layout.slots (image_spot image.now.layout image.now.words node))
        result }
    ensures bound { IfSome result (λ slot. slot < 64) }
{
    (0..slot_count(image)).find(|slot| is_repeated(image, node, *slot))
}
