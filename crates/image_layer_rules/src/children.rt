//! The children of a cell that was read.

ghost use Rattle.std.specs.Prelude.{◌≡◌, ◌≢◌, ◌<◌, ◌↔◌, IsTrue, MatchOption};
ghost use Rattle.radix_nodes.specs.Cells.{children_of};
ghost use Rattle.image_layer_rules.specs.Branches.{HasNoneFrom, IsNextFrom, HasTwoBytes};

use radix_nodes::{Cell, child};

/// How many branch bytes there are.
pub(crate) const BYTES: u64 = 256;

/// The reference under a branch byte, or 0.
pub(crate) fn child_of(cell: &Cell, byte: u64) -> u64
    requires { byte < 256 }
    ensures { result ≡ children_of cell.now byte }
{
    match child(cell, byte as u8) {
        Some(reference) => reference,
        None => 0,
    }
}

/// The lowest branch byte from this one on that has a child.
fn next_byte(cell: &Cell, from: u64) -> Option<u64>
    ensures { MatchOption result (HasNoneFrom (children_of cell.now) from) (IsNextFrom (children_of cell.now) from) }
{
    for byte in from..BYTES {
        if child_of(cell, byte) != 0 {
            return Some(byte);
        }
    }
    None
}

/// Whether two branch bytes have children.
pub(crate) fn has_two(cell: &Cell) -> bool
    ensures { IsTrue result ↔ HasTwoBytes (children_of cell.now) }
{
    let Some(one) = next_byte(cell, 0) else {
        return false;
    };
    let Some(_two) = next_byte(cell, one + 1) else {
        return false;
    };
    true
}
