// The small answers that many calls share.
ghost use Rattle.chill_base.specs.declared.faults.Stop.TheVariants.{NoMemory as StopNoMemory};
ghost use Rattle.std.specs.Prelude.{◌≡◌};

use std::alloc::{AllocError, AllocFailed};

/// An outside object didn't do what it was asked.
#[derive(Clone, Copy, Debug, PartialEq, Eq, Drop)]
pub struct Failed;

/// There was no memory left.
#[derive(Clone, Copy, Debug, PartialEq, Eq, Drop)]
pub struct NoMemory;

/// Why a call gave no answer: a refusal with its cause, or want of memory.
#[derive(Debug, PartialEq, Eq, Drop)]
pub enum Stop<F> {
    Refused(F),
    NoMemory,
}

impl From<AllocError> for NoMemory {
    fn from(_: AllocError) -> Self {
        NoMemory
    }
}

impl<T: Drop> From<AllocFailed<T>> for NoMemory {
    fn from(_: AllocFailed<T>) -> Self {
        NoMemory
    }
}

impl<F> From<NoMemory> for Stop<F> {
    ghost from_gives = { λ _ e. e ≡ StopNoMemory };

    fn from(_: NoMemory) -> Self {
        Stop::NoMemory
    }
}

impl<F> From<AllocError> for Stop<F> {
    ghost from_gives = { λ _ e. e ≡ StopNoMemory };

    fn from(_: AllocError) -> Self {
        Stop::NoMemory
    }
}

impl<T: Drop, F> From<AllocFailed<T>> for Stop<F> {
    ghost from_gives = { λ _ e. e ≡ StopNoMemory };

    fn from(_: AllocFailed<T>) -> Self {
        Stop::NoMemory
    }
}
