//! Where the members begin: the texts behind the empty one, at which the first member does.

ghost use Rattle.std.specs.Prelude.{◌≡◌, ◌<◌, ◌≤◌, [], length, slice_get, slice_index_or, vec_len, vec_capacity};
ghost use Rattle.std.specs.List.{insert};
ghost use Rattle.std.specs.Option.{unwrap_or};
ghost use Rattle.shapes.specs.Anchors.{AreAnchors, up_to, past, target_of, next_of};
ghost use Rattle.member_map.specs.Members.{anchors_of};

use cat_key::Name;

/// The number of the member that a name belongs to, counted from 0: how many of the bounds are at most the name.
pub fn number_of(bounds: &[Name], name: &Name) -> usize
    ensures number { result ≡ length (up_to bounds.now name.now) }
    ensures within { result ≤ length bounds.now }
{
    bounds.iter().filter(|bound| *name >= **bound).count()
}

/// Where the member of this number begins; None where that is the first member.
fn bound_of(bounds: &[Name], number: usize) -> Option<Name>
    requires { number ≤ length bounds.now }
    ensures { unwrap_or result [] ≡ slice_index_or (anchors_of bounds.now) number [] }
{
    if number == 0 {
        return None;
    }
    Some(bounds[number - 1])
}

/// The bound at this place; None where there are no more than that.
fn bound_at(bounds: &[Name], place: usize) -> Option<Name>
    ensures { result ≡ slice_get bounds.now place }
{
    if place >= bounds.len() {
        return None;
    }
    Some(bounds[place])
}

/// Where the target of a name begins; None where that is the first member.
pub fn target_bound(bounds: &[Name], name: &Name) -> Option<Name>
    requires { AreAnchors (anchors_of bounds.now) }
    ensures { unwrap_or result [] ≡ target_of (anchors_of bounds.now) name.now }
{
    bound_of(bounds, number_of(bounds, name))
}

/// Where the member behind the target of a name begins; None where the target is the last one.
pub fn next_bound(bounds: &[Name], name: &Name) -> Option<Name>
    requires { AreAnchors (anchors_of bounds.now) }
    ensures { result ≡ next_of (anchors_of bounds.now) name.now }
{
    bound_at(bounds, number_of(bounds, name))
}

/// Where the member behind that one begins.
pub fn second_bound(bounds: &[Name], name: &Name) -> Option<Name>
    requires { AreAnchors (anchors_of bounds.now) }
    ensures { result ≡ slice_get (past (anchors_of bounds.now) name.now) 1 }
{
    bound_at(bounds, number_of(bounds, name) + 1)
}

/// Puts a bound before the one at this place. There is memory for it.
pub fn insert_bound(bounds: &mut Vec<Name>, place: usize, bound: Name)
    requires within { place ≤ vec_len bounds.old }
    requires reserved { vec_len bounds.old < vec_capacity bounds.old }
    ensures items { bounds.new.items ≡ insert bounds.old.items place bound }
    ensures capacity { vec_capacity bounds.new ≡ vec_capacity bounds.old }
{
    bounds.push_reserved(bound);
    bounds[place..].rotate_right(1);
}
