//! The keys and prefixes of leaves and cells, and whether those of a child go on from its cell's.

ghost use Rattle.std.specs.Prelude.{◌≡◌, ◌≢◌, ◌<◌, ◌↔◌, IsTrue, slice_index};
ghost use Rattle.radix_nodes.specs.Keys.{key_bytes, EndsAt};
ghost use Rattle.tree_law.specs.Trees.{low, depth_of, IsUnder};
ghost use Rattle.tree_law.specs.Words.{reference_of};
ghost use Rattle.layer_map.specs.Keys.{key_number, IsKey};
ghost use Rattle.image_layer_rules.specs.Faults.{image_tree};
ghost use Rattle.image_layer_rules.specs.Heads.{GoesOn, HasPrefix};

use crate::words::{cell_word, leaf_key, prefix_of};
use pm_words::Image;
use pm_words::codes::reference::{KIND, LEAF};
use pm_words::offsets::cell::DEPTH;
use radix_nodes::{KEY_BYTES, Key, key_byte, shared_bytes};

/// The key of a leaf, or the prefix of a cell.
fn low_of(image: &Image, reference: u64) -> Key
    requires { reference ≢ 0 }
    ensures number { key_number result ≡ low (image_tree image.now.layout image.now.words) (reference_of reference) }
    ensures key { IsKey result }
{
    if reference / KIND == LEAF {
        return leaf_key(image, reference % KIND);
    }
    prefix_of(image, reference)
}

/// How deep a leaf or a cell is.
fn depth_of(image: &Image, reference: u64) -> u64
    requires { reference ≢ 0 }
    ensures { result ≡ depth_of (image_tree image.now.layout image.now.words) (reference_of reference) }
{
    if reference / KIND == LEAF {
        return KEY_BYTES;
    }
    cell_word(image, reference, DEPTH)
}

/// Whether a key has zeros from this byte on.
pub(crate) fn ends_at(key: &Key, depth: u64) -> bool
    ensures { IsTrue result ↔ EndsAt depth (slice_index key.now) }
{
    for at in depth..KEY_BYTES {
        if key_byte(key, at) != 0 {
            return false;
        }
    }
    true
}

/// Whether a key begins with the first bytes of a prefix, as many as its depth, and has this byte next.
fn goes_on(prefix: &Key, depth: u64, byte: u64, key: &Key) -> bool
    requires { depth < key_bytes }
    ensures { IsTrue result ↔ GoesOn (slice_index prefix.now) depth byte (slice_index key.now) }
{
    shared_bytes(key, prefix) >= depth && key_byte(key, depth) as u64 == byte
}

/// Whether a child is deeper than its cell, and its key or prefix goes on from the cell's prefix with the branch byte.
pub(crate) fn is_under(image: &Image, reference: u64, byte: u64, child: u64) -> bool
    requires depth { (image_tree image.now.layout image.now.words).depth reference < key_bytes }
    requires byte { byte < 256 }
    requires child { child ≢ 0 }
    ensures { IsTrue result ↔
        IsUnder (image_tree image.now.layout image.now.words) reference byte (reference_of child) }
{
    let depth = cell_word(image, reference, DEPTH);
    if depth_of(image, child) <= depth {
        return false;
    }
    goes_on(
        &prefix_of(image, reference),
        depth,
        byte,
        &low_of(image, child),
    )
}

/// Whether a cell's prefix has zeros from its depth on.
pub(crate) fn has_prefix(image: &Image, reference: u64) -> bool
    requires { (image_tree image.now.layout image.now.words).depth reference < key_bytes }
    ensures { IsTrue result ↔ HasPrefix (image_tree image.now.layout image.now.words) reference }
{
    ends_at(
        &prefix_of(image, reference),
        cell_word(image, reference, DEPTH),
    )
}
