//! The pairs of a whole image.

ghost use Rattle.std.specs.Prelude.{◌≡◌, ◌++◌, [], IfOk, OnOk};
ghost use Rattle.std.specs.FinMap.{entries};
ghost use Rattle.cat_history.specs.Maps.{Map, map_of};
ghost use Rattle.cat_history.specs.Replays.{pairs_of};
ghost use Rattle.image_rules.specs.Sound.{IsSound, image_map};

use crate::names::names_of;
use cat_history::{Items, NoMemory, Pairs};
use cat_key::{Name, Pair};
use image_rules::read::next_of;
use pm_words::Image;
use std::alloc::Global;
use std::collections::BTreeMap;

/// Tells the map that a sound image keeps, as pairs in rising order of names.
///
/// It takes time in proportion to the words of the listed nodes, and beside the pairs memory for the names of one node.
pub fn image_pairs(alloc: Global, image: &Image) -> Result<Pairs, NoMemory>
    requires { IsSound image.now.layout image.now.words }
    ensures pairs { IfOk result (λ pairs. pairs ≡ pairs_of (image_map image.now.layout image.now.words)) }
    ensures map { IfOk result (λ pairs. map_of pairs ≡ image_map image.now.layout image.now.words) }
{
    let mut pairs = Vec::new(alloc);
    push_nodes(&mut pairs, alloc, image)?;
    Ok(Items::of(pairs))
}

/// Pushes the pairs of all listed nodes, along the list.
fn push_nodes(pairs: &mut Vec<Pair>, alloc: Global, image: &Image) -> Result<(), NoMemory>
    requires sound { IsSound image.now.layout image.now.words }
    requires none { pairs.old.items ≡ [] }
    ensures { OnOk result (pairs.new.items ≡ pairs_of (image_map image.now.layout image.now.words)) }
{
    let mut node = 0;
    for _position in 0..image.layout().nodes() {
        let next = next_of(image, node);
        push_names(pairs, names_of(alloc, image, node, next)?)?;
        if next == 0 {
            return Ok(());
        }
        node = next;
    }
    Ok(())
}

/// Pushes the pairs of a tree of names.
fn push_names(pairs: &mut Vec<Pair>, names: BTreeMap<Name, u64>) -> Result<(), NoMemory>
    ensures { OnOk result ((m : Map) → names.entries ≡ entries m →
        pairs.new.items ≡ pairs.old.items ++ pairs_of m) }
{
    for (name, value) in names {
        pairs.push(Pair { name, value })?;
    }
    Ok(())
}
