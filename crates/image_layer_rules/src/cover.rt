//! Whether the tree leads keys as the list has them.

ghost use Rattle.std.specs.Prelude.{◌≡◌, ℕ, ◌↔◌, IsTrue, Some};
ghost use Rattle.image_rules.specs.Sound.{IsSound};
ghost use Rattle.layer_map.specs.Keys.{key_number};
ghost use Rattle.layer_map.specs.Keys.{IsKey};
ghost use Rattle.data_node.specs.Lists.{anchor_words};
ghost use Rattle.image_rules.specs.NodeSets.{AreListed};
ghost use Rattle.image_rules.specs.Nodes.{image_spot};
ghost use Rattle.image_layer_rules.specs.Covers.{IsMissed};
ghost use Rattle.image_layer_rules.specs.Rules.{BreaksTree, image_map};

use crate::line::is_open_for;
use crate::look::node_from;
use crate::stray::is_stray_from;
use crate::words::root_of;
use image_rules::read::anchor_of;
use image_rules::{NodeSet, listed_nodes};
use pm_words::Image;
use radix_nodes::Key;

/// The words of a node's anchor.
fn anchor_key(image: &Image, node: u64) -> Key
    ensures words { result ≡ anchor_words (image_spot image.now.layout image.now.words node) }
    ensures key { IsKey result }
{
    anchor_of(image, node)
}

/// Whether the tree leads a key to a node.
fn leads_to(image: &Image, key: &Key, node: u64) -> bool
    requires right { ¬ BreaksTree image.now.layout image.now.words 10 }
    requires key { IsKey key.now }
    ensures { IsTrue result ↔ (image_map image.now.layout image.now.words (key_number key.now) ≡ Some node) }
{
    let Some(found) = node_from(image, root_of(image), 0, key) else {
        return false;
    };
    found == node
}

/// Whether a node is listed, and the tree doesn't lead its anchor to it, if no line exempts the anchor.
fn is_missed(image: &Image, listed: &NodeSet, node: u64) -> bool
    requires right { ¬ BreaksTree image.now.layout image.now.words 10 }
    requires listed { AreListed image.now.layout image.now.words listed.now }
    ensures { IsTrue result ↔ IsMissed image.now.layout image.now.words node }
{
    if !listed.contains(node) {
        return false;
    }
    let anchor = anchor_key(image, node);
    if leads_to(image, &anchor, node) {
        return false;
    }
    !is_open_for(image, anchor)
}

/// Whether there is such a node.
fn has_missed(image: &Image, listed: &NodeSet) -> bool
    requires sound { IsSound image.now.layout image.now.words }
    requires right { ¬ BreaksTree image.now.layout image.now.words 10 }
    requires listed { AreListed image.now.layout image.now.words listed.now }
    ensures { IsTrue result ↔ ((n : ℕ) × IsMissed image.now.layout image.now.words n) }
{
    for node in 0..image.layout().nodes() {
        if is_missed(image, listed, node) {
            return true;
        }
    }
    false
}

/// Whether the image, which keeps the rules before it, breaks rule 12.
pub(crate) fn is_uncovered(image: &Image) -> bool
    requires sound { IsSound image.now.layout image.now.words }
    requires right { ¬ BreaksTree image.now.layout image.now.words 10 }
    ensures { IsTrue result ↔ BreaksTree image.now.layout image.now.words 12 }
{
    let listed = listed_nodes(image);
    if is_stray_from(image, &listed, root_of(image), 0) {
        return true;
    }
    has_missed(image, &listed)
}
