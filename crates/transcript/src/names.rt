//! The map as it grows along the writes of a round.

ghost use Rattle.std.specs.Prelude.{◌≡◌, ◌≤◌, IfOk, OnOk, length};
ghost use Rattle.std.specs.FinMap.{entries};
ghost use Rattle.cat_history.specs.Maps.{Map};
ghost use Rattle.cat_history.specs.Writes.{after};

use crate::NoMemory;
use cat_history::{Names, Write, change_all};

/// Makes the writes before a place, of which so many are made, and tells how many are made then.
pub(crate) fn grow(
    names: &mut Names,
    writes: &[Write],
    done: usize,
    place: u64,
) -> Result<usize, NoMemory>
    requires earlier { done ≤ place }
    requires within { done ≤ length writes.now }
    ensures made { OnOk result ((m : Map) → names.old.entries ≡ entries (after m writes.now done) →
        names.new.entries ≡ entries (after m writes.now place)) }
    ensures earlier { IfOk result (λ until. until ≤ place) }
    ensures within { IfOk result (λ until. until ≤ length writes.now) }
    ensures same { IfOk result (λ until. (m : Map) → after m writes.now until ≡ after m writes.now place) }
{
    let until = if place < writes.len() as u64 {
        place as usize
    } else {
        writes.len()
    };
    change_all(names, &writes[done..until])?;
    Ok(until)
}
