//! Which listed node has an anchor.

ghost use Rattle.std.specs.Prelude.{◌≡◌, ◌≢◌, ℕ, ◌<◌, ◌↔◌, IsTrue, MatchOption};
ghost use Rattle.data_node.specs.Lists.{anchor_in, number_of};
ghost use Rattle.image_rules.specs.Nodes.{image_spot, IsListedNode};
ghost use Rattle.image_rules.specs.Sound.{IsSound};
ghost use Rattle.image_recovery_law.specs.updater_row_law.specs.Columns.{line_count};
ghost use Rattle.image_recovery_law.specs.Stages.{LacksAnchor};
ghost use Rattle.image_recovery.specs.Plans.{columns, list_of, HasAnchorOf};

use crate::lines::line_anchor;
use cat_key::WORDS;
use image_rules::read::{anchor_of, next_of, node_count};
use pm_words::Image;

/// Whether they are one key.
fn is_same(one: [u64; WORDS], other: [u64; WORDS]) -> bool
    ensures { IsTrue result ↔ (number_of one ≡ number_of other) }
{
    one == other
}

/// Whether a node has this anchor.
fn has_anchor(image: &Image, node: u64, anchor: [u64; WORDS]) -> bool
    ensures { IsTrue result ↔ (anchor_in (image_spot image.now.layout image.now.words node) ≡ number_of anchor) }
{
    is_same(anchor_of(image, node), anchor)
}

/// The listed node that has this anchor.
fn node_with(image: &Image, anchor: [u64; WORDS]) -> Option<u64>
    requires { IsSound image.now.layout image.now.words }
    ensures { MatchOption result
        ((n : ℕ) → IsListedNode image.now.layout image.now.words n →
        anchor_in (image_spot image.now.layout image.now.words n) ≢ number_of anchor)
        (λ n. IsListedNode image.now.layout image.now.words n
        × (anchor_in (image_spot image.now.layout image.now.words n) ≡ number_of anchor)) }
{
    let mut node = 0;
    // A list of more nodes than there are would have one twice.
    for _position in 0..node_count(image) + 1 {
        if has_anchor(image, node, anchor) {
            return Some(node);
        }
        node = next_of(image, node);
        if node == 0 {
            return None;
        }
    }
    None
}

/// The listed node that has the anchor of a line.
pub(crate) fn anchored_node(image: &Image, line: u64) -> Option<u64>
    requires sound { IsSound image.now.layout image.now.words }
    requires line { line < line_count image.now.layout }
    ensures { MatchOption result (LacksAnchor (list_of image.now) (columns image.now) line)
        (HasAnchorOf image.now line) }
{
    node_with(image, line_anchor(image, line))
}
