//! Reading the map that an image keeps.

ghost use Rattle.std.specs.Prelude.{◌≡◌, ◌<◌, ◌≤◌, ◌↔◌, IsTrue, IsNone, IfSome};
ghost use Rattle.cat_history.specs.Maps.{Map, at};
ghost use Rattle.cat_history.specs.CrashEnds.{IsFound};
ghost use Rattle.image_rules.specs.Nodes.{target_in};
ghost use Rattle.image_rules.specs.Sound.{IsMapOf};

use crate::node::slot_with;
use crate::read::{anchor_of, next_of, node_count, value_in};
use cat_history::Change;
use cat_key::Name;
use data_node::is_below;
use pm_words::Image;

/// The node to which a name belongs, if the image has that node, as it has each where it is sound.
fn target_of(image: &Image, name: &Name) -> Option<u64>
    ensures some { IfSome result (λ node. (node ≡ target_in image.now.layout image.now.words name.now) ×
        (node < image.now.layout.nodes)) }
    ensures none { IsNone result → image.now.layout.nodes ≤ target_in image.now.layout image.now.words name.now }
{
    let nodes = node_count(image);
    let words = name.words();
    let mut node = 0;
    for _position in 0..nodes {
        let next = next_of(image, node);
        if next == 0 {
            break;
        }
        if nodes <= next {
            return None;
        }
        if is_below(&words, &anchor_of(image, next)) {
            break;
        }
        node = next;
    }
    Some(node)
}

/// The number that a name has in the map of an image.
pub fn number_in(image: &Image, name: &Name) -> Option<u64>
    ensures { (m : Map) → IsMapOf image.now.layout image.now.words m → result ≡ at m name.now }
{
    let words = name.words();
    let node = target_of(image, name)?;
    let slot = slot_with(image, node, words)?;
    Some(value_in(image, node, slot))
}

/// Whether the map of an image shows a change: a put where the name has its value, a delete where it has none.
pub fn is_found(image: &Image, change: &Change) -> bool
    ensures { (m : Map) → IsMapOf image.now.layout image.now.words m → IsTrue result ↔ IsFound m change.now }
{
    match change {
        Change::Put { name, value } => number_in(image, name) == Some(*value),
        Change::Del { name } => number_in(image, name).is_none(),
    }
}
