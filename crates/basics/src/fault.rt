//! Why something was not done.
ghost use Rattle.std.specs.Prelude.{◌≡◌};
ghost use Rattle.basics.specs.declared.fault.Fault.TheVariants.{NoMemory};

use std::alloc::{AllocError, AllocFailed};

/// Why something was not done: a cause of its own, or that there was no memory for it.
#[derive(Clone, Copy, Debug, Drop, PartialEq, Eq)]
pub enum Fault<C> {
    /// What is against it.
    Cause(C),
    /// An allocation was refused.
    NoMemory,
}

impl<C: Drop> From<AllocError> for Fault<C> {
    ghost from_gives = { λ _ fault. fault ≡ NoMemory };

    fn from(_: AllocError) -> Self {
        Fault::NoMemory
    }
}

impl<C: Drop, T: Drop> From<AllocFailed<T>> for Fault<C> {
    ghost from_gives = { λ _ fault. fault ≡ NoMemory };

    fn from(_: AllocFailed<T>) -> Self {
        Fault::NoMemory
    }
}
