//! The rules on each listed node.

ghost use Rattle.std.specs.Prelude.{◌<◌, IfSome};
ghost use Rattle.pm_words.specs.Locations.{node_words};
ghost use Rattle.image_rules.specs.Lowest.{IsLowest, IsFirst};
ghost use Rattle.image_rules.specs.Nodes.{image_spot, LeadWithin};
ghost use Rattle.image_rules.specs.Rules.{BreaksNames, BreaksPrints, BreaksApart, BreaksBy, BreaksInNode};

use crate::node::{
    has_bits_past, misprinted_slot, nameless_slot, number_of, print_start, repeated_slot,
    slot_start,
};
use crate::read::{bitmap_of, next_of, node_count, slot_count};
use pm_words::Image;
use pm_words::offsets::node;

/// A rule on a node.
#[derive(Clone, Copy)]
pub(crate) enum NodeRule {
    /// Rule 6: its live slots have names, and no bit is set past its slots.
    Names,
    /// Rule 7: they have the fingerprints of their names.
    Prints,
    /// Rule 8: they have different names.
    Apart,
}

/// The lowest offset at which a node breaks rule 6.
fn misnamed_offset(image: &Image, node: u64) -> Option<u64>
    requires { node < image.now.layout.nodes }
    ensures lowest { IsLowest (BreaksNames image.now.layout.slots (image_spot image.now.layout image.now.words node))
        result }
    ensures within { IfSome result (λ offset. offset < node_words image.now.layout) }
{
    if has_bits_past(bitmap_of(image, node), slot_count(image)) {
        return Some(node::BITMAP);
    }
    let slot = nameless_slot(image, node)?;
    Some(slot_start(slot))
}

/// The lowest offset at which a node breaks rule 7.
fn misprinted_offset(image: &Image, node: u64) -> Option<u64>
    requires { node < image.now.layout.nodes }
    ensures lowest { IsLowest (BreaksPrints image.now.layout.slots (image_spot image.now.layout image.now.words node))
        result }
    ensures within { IfSome result (λ offset. offset < node_words image.now.layout) }
{
    let slot = misprinted_slot(image, node)?;
    Some(print_start(slot))
}

/// The lowest offset at which a node breaks rule 8.
fn repeated_offset(image: &Image, node: u64) -> Option<u64>
    requires { node < image.now.layout.nodes }
    ensures lowest { IsLowest (BreaksApart image.now.layout.slots (image_spot image.now.layout image.now.words node))
        result }
    ensures within { IfSome result (λ offset. offset < node_words image.now.layout) }
{
    let slot = repeated_slot(image, node)?;
    Some(slot_start(slot))
}

impl NodeRule {
    /// The lowest offset at which a node breaks the rule.
    fn broken_offset(self, image: &Image, node: u64) -> Option<u64>
        requires { node < image.now.layout.nodes }
        ensures lowest { IsLowest (BreaksBy self image.now.layout.slots
            (image_spot image.now.layout image.now.words node)) result }
        ensures within { IfSome result (λ offset. offset < node_words image.now.layout) }
    {
        match self {
            NodeRule::Names => misnamed_offset(image, node),
            NodeRule::Prints => misprinted_offset(image, node),
            NodeRule::Apart => repeated_offset(image, node),
        }
    }

    /// The first word of a listed node that breaks the rule.
    pub(crate) fn broken_word(self, image: &Image) -> Option<u64>
        requires { LeadWithin image.now.layout image.now.words }
        ensures { IsFirst image.now.layout (BreaksInNode image.now.layout image.now.words self) result }
    {
        let mut node = 0;
        for _position in 0..node_count(image) + 1 {
            if let Some(offset) = self.broken_offset(image, node) {
                return Some(number_of(image, node, offset));
            }
            node = next_of(image, node);
            if node == 0 {
                return None;
            }
        }
        None
    }
}
