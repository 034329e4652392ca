ghost use Rattle.std.specs.Prelude.{◌≡◌};
ghost use Rattle.updater_text.specs.declared.stops.Lack.TheVariants as lack;

use std::alloc::{AllocError, AllocFailed};

/// Out of memory.
#[derive(Clone, Copy, Debug, PartialEq, Eq)]
pub struct NoMemory;

impl From<AllocError> for NoMemory {
    fn from(_: AllocError) -> Self {
        NoMemory
    }
}

impl<T: Drop> From<AllocFailed<T>> for NoMemory {
    fn from(_: AllocFailed<T>) -> Self {
        NoMemory
    }
}

/// Why a call that only computes gave no value: a refusal of its own, or out of memory.
#[derive(Clone, Debug, Drop)]
pub enum Lack<R> {
    Refused(R),
    NoMemory,
}

impl<R> From<NoMemory> for Lack<R> {
    ghost from_gives = { λ _ given. given ≡ lack.NoMemory };

    fn from(_: NoMemory) -> Self {
        Lack::NoMemory
    }
}
