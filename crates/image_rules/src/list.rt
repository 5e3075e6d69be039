//! The rules on the list that the nodes make.

ghost use Rattle.std.specs.Prelude.{◌≡◌, ◌⊎◌, ◌<◌, ◌≤◌, ◌↔◌, IsTrue, [], ◌∷◌};
ghost use Rattle.cat_key.specs.Names.{AreNameWords};
ghost use Rattle.data_node.specs.Lists.{anchor_in, anchor_words};
ghost use Rattle.image_rules.specs.Lowest.{IsFirst};
ghost use Rattle.image_rules.specs.NodeSets.{AreListed};
ghost use Rattle.image_rules.specs.Nodes.{image_spot, LeadWithin};
ghost use Rattle.image_rules.specs.Rules.{LeadsOut, LeadsBack, BreaksAnchors};

use crate::node::number_of;
use crate::node_set::NodeSet;
use crate::read::{anchor_of, next_of, node_count};
use cat_key::{Name, WORDS};
use data_node::is_below;
use pm_words::Image;
use pm_words::offsets::node;

/// The first word that breaks rule 3: it leads to none of the image's nodes.
pub(crate) fn leads_out(image: &Image) -> Option<u64>
    ensures { IsFirst image.now.layout (LeadsOut image.now.layout image.now.words) result }
{
    let nodes = node_count(image);
    let mut node = 0;
    // A list of more nodes than there are has one twice, and goes round.
    for _position in 0..nodes + 1 {
        let next = next_of(image, node);
        if next == 0 {
            return None;
        }
        if nodes <= next {
            return Some(number_of(image, node, node::NEXT));
        }
        node = next;
    }
    None
}

/// The first word that breaks rule 4: it leads back to a node that was reached before.
pub(crate) fn leads_back(image: &Image) -> Option<u64>
    requires { LeadWithin image.now.layout image.now.words }
    ensures { IsFirst image.now.layout (LeadsBack image.now.layout image.now.words) result }
{
    let mut reached = NodeSet::new();
    let mut node = 0;
    for _position in 0..node_count(image) + 1 {
        reached.insert(node);
        let next = next_of(image, node);
        if next == 0 {
            return None;
        }
        if reached.contains(next) {
            return Some(number_of(image, node, node::NEXT));
        }
        node = next;
    }
    None
}

/// The nodes of the list, which goes through none of them twice and leads to no other ones.
pub fn listed_nodes(image: &Image) -> NodeSet
    requires { LeadWithin image.now.layout image.now.words }
    ensures { AreListed image.now.layout image.now.words result }
{
    let mut listed = NodeSet::new();
    let mut node = 0;
    for _position in 0..node_count(image) + 1 {
        listed.insert(node);
        node = next_of(image, node);
        if node == 0 {
            return listed;
        }
    }
    listed
}

/// Whether these words are those of the zero key.
fn is_zero(key: [u64; WORDS]) -> bool
    ensures { IsTrue result ↔ (key ≡ 0 ∷ 0 ∷ 0 ∷ []) }
{
    key == [0; WORDS]
}

/// Whether the anchor of a node is no name, or isn't above that of the node before.
fn is_misplaced(image: &Image, before: u64, node: u64) -> bool
    requires before { before < image.now.layout.nodes }
    requires node { node < image.now.layout.nodes }
    ensures { IsTrue result ↔ ((¬ AreNameWords (anchor_words (image_spot image.now.layout image.now.words node)))
        ⊎ (anchor_in (image_spot image.now.layout image.now.words node)
        ≤ anchor_in (image_spot image.now.layout image.now.words before))) }
{
    let anchor = anchor_of(image, node);
    Name::of_words(anchor).is_none() || !is_below(&anchor_of(image, before), &anchor)
}

/// The first word that breaks rule 5.
pub(crate) fn wrong_anchor(image: &Image) -> Option<u64>
    requires { LeadWithin image.now.layout image.now.words }
    ensures { IsFirst image.now.layout (BreaksAnchors image.now.layout image.now.words) result }
{
    let nodes = node_count(image);
    if !is_zero(anchor_of(image, 0)) {
        return Some(number_of(image, 0, node::ANCHOR));
    }
    let mut node = 0;
    for _position in 0..nodes {
        let next = next_of(image, node);
        if next == 0 {
            return None;
        }
        if is_misplaced(image, node, next) {
            return Some(number_of(image, next, node::ANCHOR));
        }
        node = next;
    }
    None
}
