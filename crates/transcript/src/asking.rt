//! What is judged, and what is answered.

ghost use Rattle.std.specs.Prelude.{◌≡◌};
ghost use Rattle.transcript.specs.declared.asking.Judged.TheVariants.{NoMemory};

use cat_history::{Budgets, CallerOp, Items};
use std::alloc::AllocError;

/// A caller's number, and what it asks.
pub type AskedCall = CallerOp;

/// The calls of a round, in the order of the script.
pub type Asked = Items<AskedCall>;

/// What is said of the end of a round.
#[derive(Drop)]
pub struct RoundEnd {
    /// Whether a crash ended it; else its callers were joined.
    pub crashed: bool,
    /// So many placed writes, and no put or delete begins to write any more.
    pub limit: u64,
    /// How many writes have a place.
    pub writes: u64,
    /// How many names the map has at the end.
    pub names: u64,
    /// How many events each caller might make, by its number; a caller past their end has no budget to keep. Nobody
    /// looks at them where the callers were joined.
    pub budgets: Budgets,
}

/// Why a round was not found legal.
#[derive(Clone, Copy, Debug, PartialEq, Eq)]
pub enum Judged {
    /// The first rule that the round breaks, from 1 to 8.
    Illegal { rule: u64 },
    /// There was no memory to judge it.
    NoMemory,
}

impl From<AllocError> for Judged {
    ghost from_gives = { λ _ judged. judged ≡ NoMemory };

    fn from(_error: AllocError) -> Judged {
        Judged::NoMemory
    }
}
