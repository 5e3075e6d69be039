//! What a call comes to that is made again until it is answered.

use crate::tried::{Tried, TriedTurn};
use call_stages::Once;
use updater::Turned;

/// What a call comes to that is made again while it is turned back.
#[derive(Drop)]
pub enum Ended<T> {
    Done(T),
    /// A put found no room.
    Full,
    /// The clock had reached the limit of a put or a delete.
    Spent { clock: u64 },
    /// The caller had no step left before one that the call still had to make.
    Cut,
}

impl<T> Tried<T> {
    ghost use Rattle.std.specs.Prelude.{◌≡◌};
    ghost use Rattle.pac_index.specs.Ends.{ended_by};

    /// How a call ends that is so answered. One that is turned back, or finds its node worn, is made again.
    pub(crate) fn ended(self) -> Option<Ended<T>>
        ensures { result ≡ ended_by self }
    {
        match self {
            Tried::Answered(Once::Done(value)) => Some(Ended::Done(value)),
            Tried::Answered(Once::Spent { clock }) => Some(Ended::Spent { clock }),
            Tried::Answered(Once::Worn { .. } | Once::Again(_)) => None,
            Tried::Cut => Some(Ended::Cut),
        }
    }
}

impl TriedTurn {
    ghost use Rattle.std.specs.Prelude.{◌≡◌};
    ghost use Rattle.pac_index.specs.Ends.{turn_ended_by};

    /// How a turn ends that is so answered. One that finds the updater lock taken is made again.
    pub(crate) fn ended(self) -> Option<Ended<Turned>>
        ensures { result ≡ turn_ended_by self }
    {
        match self {
            TriedTurn::Turned { turned, .. } => Some(Ended::Done(turned)),
            TriedTurn::Held { .. } => None,
            TriedTurn::Cut => Some(Ended::Cut),
        }
    }
}
