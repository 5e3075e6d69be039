//! The names of one node.

ghost use Rattle.std.specs.Prelude.{◌≡◌, ◌==◌, ◌<◌, nat_lt, if◌then◌else◌, Some, None, IfOk};
ghost use Rattle.std.specs.FinMap.{empty, entries};
ghost use Rattle.cat_key.specs.Names.{bytes_of};
ghost use Rattle.data_node.specs.Lists.{anchor_in, number_of, target_from};
ghost use Rattle.data_node.specs.Spots.{name_words};
ghost use Rattle.data_node.specs.Weights.{has_name_in};
ghost use Rattle.image_rules.specs.Nodes.{image_spot, image_list, image_range, next_in, IsListedNode};
ghost use Rattle.image_rules.specs.Sound.{IsSound, with_slots};

use cat_history::NoMemory;
use cat_key::{Name, WORDS};
use data_node::is_below;
use image_rules::read::{self, anchor_of, is_live_in, slot_count, value_in};
use pm_words::Image;
use std::alloc::Global;
use std::collections::BTreeMap;

/// Whether a key is below a node's anchor.
fn is_under(image: &Image, node: u64, key: &[u64; WORDS]) -> bool
    ensures { result ≡ nat_lt (number_of key.now) (anchor_in (image_spot image.now.layout image.now.words node)) }
{
    is_below(key, &anchor_of(image, node))
}

/// Whether a key is in the range of a listed node, which leads to `next`.
fn has_in_range(image: &Image, node: u64, next: u64, key: &[u64; WORDS]) -> bool
    requires sound { IsSound image.now.layout image.now.words }
    requires node { node < image.now.layout.nodes }
    requires listed { IsListedNode image.now.layout image.now.words node }
    requires next { next ≡ next_in image.now.layout image.now.words node }
    ensures { result ≡ (target_from 0 (image_list image.now.layout image.now.words) (number_of key.now) == node) }
{
    !is_under(image, node, key) && (next == 0 || is_under(image, next, key))
}

/// The name in a slot of a listed node that leads to `next`, if the slot is live and the name belongs to the node.
fn name_in(image: &Image, node: u64, next: u64, slot: u64) -> Option<Name>
    requires sound { IsSound image.now.layout image.now.words }
    requires node { node < image.now.layout.nodes }
    requires listed { IsListedNode image.now.layout image.now.words node }
    requires next { next ≡ next_in image.now.layout image.now.words node }
    requires slot { slot < image.now.layout.slots }
    ensures { result ≡ (if has_name_in (image_range image.now.layout image.now.words node)
        (image_spot image.now.layout image.now.words node) slot
        then Some (bytes_of (name_words (image_spot image.now.layout image.now.words node) slot)) else None) }
{
    if !is_live_in(image, node, slot) {
        return None;
    }
    let words = read::name_in(image, node, slot);
    if !has_in_range(image, node, next, &words) {
        return None;
    }
    Name::of_words(words)
}

/// The names that a listed node has of those that belong to it, with their numbers.
pub(crate) fn names_of(
    alloc: Global,
    image: &Image,
    node: u64,
    next: u64,
) -> Result<BTreeMap<Name, u64>, NoMemory>
    requires sound { IsSound image.now.layout image.now.words }
    requires node { node < image.now.layout.nodes }
    requires listed { IsListedNode image.now.layout image.now.words node }
    requires next { next ≡ next_in image.now.layout image.now.words node }
    ensures { IfOk result (λ names. names.entries ≡ entries
        (with_slots (image_range image.now.layout image.now.words node)
        (image_spot image.now.layout image.now.words node) empty image.now.layout.slots)) }
{
    let mut names = BTreeMap::new(alloc);
    for slot in 0..slot_count(image) {
        if let Some(name) = name_in(image, node, next, slot) {
            names.insert(name, value_in(image, node, slot))?;
        }
    }
    Ok(names)
}
