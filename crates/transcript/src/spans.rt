//! What callers did one after another.

ghost use Rattle.std.specs.Prelude.{◌≡◌, ◌↔◌, ◌≤◌, IsTrue, map};
ghost use Rattle.std.specs.List.{IsDistinct};
ghost use Rattle.std.specs.List.Sorted.{IsStrictlySortedBy};
ghost use Rattle.std.specs.Ordering.{eq_by_cmp};
ghost use Rattle.transcript.specs.Calls.{key_cmp};
ghost use Rattle.transcript.specs.Spans.{FollowEachOther, key_in};

/// The writes between which a call took effect: how many come before its start, and before its end.
#[derive(Clone, Copy)]
pub(crate) struct Taken {
    pub start: u128,
    pub end: u128,
}

/// The start and the end of what a caller did with one of its calls.
#[derive(Clone, Copy)]
pub(crate) struct Span {
    pub caller: u64,
    pub index: u64,
    pub start: u128,
    pub end: u128,
}

/// Whether, of two spans of one caller, the earlier one always ends before the later one starts, where they stand in
/// order.
fn follow(spans: &[Span]) -> bool
    requires { IsStrictlySortedBy key_cmp (map key_in spans.now) }
    ensures { IsTrue result ↔ FollowEachOther spans.now }
{
    let mut caller = 0;
    let mut latest = 0;
    for span in spans {
        let before = if span.caller == caller { latest } else { 0 };
        if span.start < before {
            return false;
        }
        caller = span.caller;
        latest = before.max(span.end);
    }
    true
}

/// The same of spans in any order, no two of which are of one call.
pub(crate) fn follow_each_other(spans: Vec<Span>) -> bool
    requires { IsDistinct (eq_by_cmp key_cmp) (map key_in spans.items) }
    ensures { IsTrue result ↔ FollowEachOther spans.items }
{
    let mut sorted = spans;
    sorted.sort_unstable_by_key(|span| (span.caller, span.index));
    follow(&sorted)
}
