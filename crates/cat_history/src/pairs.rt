//! Lists of names with their numbers, each name looked for from the front.

ghost use Rattle.std.specs.Prelude.{◌≡◌, ◌≢◌, ℕ, ◌<◌, All, IfSome, IfNone, length, slice_index_or};
ghost use Rattle.cat_history.specs.Maps.{at, map_of};
ghost use Rattle.cat_key.specs.declared.Pair.{Pair};

use cat_key::{Name, Pair};

/// The number of a name in the map of these pairs.
pub fn number_in(pairs: &[Pair], name: &Name) -> Option<u64>
    ensures { result ≡ at (map_of pairs.now) name.now }
{
    let position = position_of(pairs, name)?;
    Some(pairs[position].value)
}

/// The position of the first pair with this name.
pub fn position_of(pairs: &[Pair], name: &Name) -> Option<usize>
    ensures first { IfSome result (λ position. (before : ℕ) → before < position →
        (d : Pair) → (slice_index_or pairs.now before d).name ≢ name.now) }
    ensures within { IfSome result (λ position. position < length pairs.now) }
    ensures named { IfSome result (λ position. (d : Pair) → (slice_index_or pairs.now position d).name ≡ name.now) }
    ensures none { IfNone result (All (λ pair. pair.name ≢ name.now) pairs.now) }
{
    pairs.iter().position(|pair| pair.name == *name)
}
