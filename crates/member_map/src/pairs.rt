//! Pairs in the order of their names: how many lie between two texts, and one more of them.

ghost use Rattle.std.specs.Prelude.{◌≡◌, ◌+◌, ◌<◌, ◌≤◌, None, [], length, slice_index_or, vec_len, vec_capacity};
ghost use Rattle.std.specs.FinMap.{insert};
ghost use Rattle.std.specs.List.{filter};
ghost use Rattle.std.specs.List.{insert as inserted};
ghost use Rattle.std.specs.Option.{unwrap_or};
ghost use Rattle.cat_key.specs.declared.Pair.{Pair};
ghost use Rattle.cat_history.specs.Maps.{at, map_of};
ghost use Rattle.cat_history.specs.Replays.{pairs_of};
ghost use Rattle.shapes.specs.Anchors.{below, is_between};
ghost use Rattle.shapes.specs.Anchors.{is_under as under};

use cat_key::{Name, Pair};

/// The name is below the low one; none is where that is None.
fn is_below(name: &Name, low: &Option<Name>) -> bool
    ensures { result ≡ below name.now (unwrap_or low.now []) }
{
    match low {
        Some(low) => *name < *low,
        None => false,
    }
}

/// The name is below the high one, or there is none.
fn is_under(name: &Name, high: &Option<Name>) -> bool
    ensures { result ≡ under high.now name.now }
{
    match high {
        Some(high) => *name < *high,
        None => true,
    }
}

/// The name is at least the low one, and under the high one.
pub fn lies_between(name: &Name, low: &Option<Name>, high: &Option<Name>) -> bool
    ensures { result ≡ is_between (unwrap_or low.now []) high.now name.now }
{
    !is_below(name, low) && is_under(name, high)
}

/// How many of the names are below this one.
fn count_below(pairs: &[Pair], low: &Option<Name>) -> usize
    ensures many { result ≡ length (filter (λ pair. below pair.name (unwrap_or low.now [])) pairs.now) }
    ensures within { result ≤ length pairs.now }
{
    pairs
        .iter()
        .filter(|pair| is_below(&pair.name, low))
        .count()
}

/// How many of the names are at least the low one and under the high one.
pub fn count_between(pairs: &[Pair], low: &Option<Name>, high: &Option<Name>) -> usize
    ensures { result ≡ length (filter (λ pair. is_between (unwrap_or low.now []) high.now pair.name) pairs.now) }
{
    pairs
        .iter()
        .filter(|pair| lies_between(&pair.name, low, high))
        .count()
}

/// Of the names from the low one on, the one that so many come before.
pub fn name_behind(pairs: &[Pair], low: &Option<Name>, before: usize) -> Name
    requires { length (filter (λ pair. below pair.name (unwrap_or low.now [])) pairs.now) + before < length pairs.now }
    ensures { (d : Pair) → result ≡ (slice_index_or pairs.now
        (length (filter (λ pair. below pair.name (unwrap_or low.now [])) pairs.now) + before) d).name }
{
    pairs[count_below(pairs, low) + before].name
}

/// Gives a name that the pairs lack this number. There is memory for it.
pub fn insert_pair(pairs: &mut Vec<Pair>, name: &Name, value: u64)
    requires in_order { pairs.old.items ≡ pairs_of (map_of pairs.old.items) }
    requires lacks { at (map_of pairs.old.items) name.now ≡ None }
    requires reserved { vec_len pairs.old < vec_capacity pairs.old }
    ensures items { pairs.new.items ≡ pairs_of (insert (map_of pairs.old.items) name.now value) }
    ensures capacity { vec_capacity pairs.new ≡ vec_capacity pairs.old }
{
    let place = count_below(pairs, &Some(*name));
    insert_pair_at(pairs, place, name, value);
}

/// Puts a pair before the one at this place. There is memory for it.
fn insert_pair_at(pairs: &mut Vec<Pair>, place: usize, name: &Name, value: u64)
    requires within { place ≤ vec_len pairs.old }
    requires reserved { vec_len pairs.old < vec_capacity pairs.old }
    ensures items { pairs.new.items ≡ inserted pairs.old.items place (record { name = name.now; value = value }) }
    ensures capacity { vec_capacity pairs.new ≡ vec_capacity pairs.old }
{
    pairs.push_reserved(Pair { name: *name, value });
    pairs[place..].rotate_right(1);
}
