//! What the steps of one try come to.

use call_stages::Once;

/// What the steps of one try come to.
pub(crate) enum Ran<T> {
    Answered(Once<T>),
    /// It was cut off behind a step. Its write has this place, if it has one.
    Cut { place: Option<u64> },
}
