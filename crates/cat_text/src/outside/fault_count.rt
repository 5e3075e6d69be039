//! A count that only proofs read. It takes no bytes, so it has no end, and its methods do nothing at run time.
ghost use Rattle.std.specs.Prelude.{◌≡◌, ℕ, ◌+◌};
ghost use Rattle.std.specs.Borrow.{ftrue};

use std::marker::{Model, PhantomData};

/// How many calls failed.
#[derive(Drop)]
pub struct FaultCount {
    marker: PhantomData<u8>,
    pub ghost count: { ℕ },
}

impl Model for FaultCount {
    ghost also_owns = { λ _. ftrue };
}

impl FaultCount {
    /// No fault so far.
    pub fn new() -> FaultCount
        ensures { result.count ≡ 0 }
    {
        FaultCount {
            marker: PhantomData,
        }
    }

    /// Counts one fault.
    pub fn rise(&mut self)
        ensures { self.new.count ≡ self.old.count + 1 }
    {}
}
