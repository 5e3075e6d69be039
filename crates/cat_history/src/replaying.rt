//! The map that a history leaves.

ghost use Rattle.std.specs.Prelude.{◌≡◌, IfOk};
ghost use Rattle.cat_history.specs.Maps.{map_of};
ghost use Rattle.cat_history.specs.Replays.{pairs_of};
ghost use Rattle.cat_history.specs.Writes.{after_all};

use crate::NoMemory;
use crate::growing::{change_all, names_of, pairs_in};
use crate::op::Write;
use crate::record::Pairs;
use std::alloc::Global;

/// Tells the map that a history leaves, as pairs in rising order of names. The history begins with the map of the base.
///
/// It takes time in proportion to the pairs and the writes, and to the logarithm of how many names there are.
pub fn replay(alloc: Global, base: &Pairs, history: &[Write]) -> Result<Pairs, NoMemory>
    ensures pairs { IfOk result (λ pairs. pairs ≡ pairs_of (after_all (map_of base.now) history.now)) }
    ensures map { IfOk result (λ pairs. map_of pairs ≡ after_all (map_of base.now) history.now) }
{
    let mut names = names_of(alloc, base.as_slice())?;
    change_all(&mut names, history)?;
    pairs_in(alloc, names)
}
