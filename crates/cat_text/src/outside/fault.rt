//! Why a sink or a shelf did not do what it was asked.
ghost use Rattle.std.specs.Prelude.{◌≡◌};
ghost use Rattle.cat_text.specs.declared.outside.fault.OutsideFault.TheVariants.{NoMemory};

use std::alloc::AllocError;

/// Why a sink took nothing, or a file was not loaded or saved.
#[derive(Clone, Copy, Debug, PartialEq, Eq)]
pub enum OutsideFault {
    /// The call failed. A file that was to be saved is as it was, or has the new bytes already.
    Failed,
    /// There was no memory for the bytes. A file that was to be saved is as it was.
    NoMemory,
}

impl From<AllocError> for OutsideFault {
    ghost from_gives = { λ _ fault. fault ≡ NoMemory };

    fn from(_error: AllocError) -> OutsideFault {
        OutsideFault::NoMemory
    }
}
