ghost use Rattle.std.specs.Prelude.{◌≡◌};
ghost use Rattle.wire_value.specs.declared.error.ReadError.TheVariants.{NoMemory as no_memory};

use std::alloc::{AllocError, AllocFailed};
use updater_text::NoMemory;

/// Why nothing was read: no value stands there, or out of memory.
#[derive(Debug, Drop)]
pub enum ReadError {
    Malformed,
    NoMemory,
}

impl From<NoMemory> for ReadError {
    ghost from_gives = { λ _ e. e ≡ no_memory };

    fn from(_: NoMemory) -> ReadError {
        ReadError::NoMemory
    }
}

impl From<AllocError> for ReadError {
    ghost from_gives = { λ _ e. e ≡ no_memory };

    fn from(_: AllocError) -> ReadError {
        ReadError::NoMemory
    }
}

impl<T: Drop> From<AllocFailed<T>> for ReadError {
    ghost from_gives = { λ _ e. e ≡ no_memory };

    fn from(_: AllocFailed<T>) -> ReadError {
        ReadError::NoMemory
    }
}
