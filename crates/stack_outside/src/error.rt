//! Why a file was not read, or a piece not written.

ghost use Rattle.std.specs.Prelude.{◌≡◌};
ghost use Rattle.stack_outside.specs.declared.error.ShelfError.TheVariants.{Memory};

use std::alloc::{AllocError, AllocFailed};

/// Why a file was not read.
#[derive(Clone, Copy, Debug, PartialEq, Eq)]
pub enum ShelfError {
    /// The device failed, or nothing has the name.
    Failed,
    /// The name holds more bytes than were allowed.
    TooLong,
    /// Memory ran out.
    Memory,
}

/// One call of the system failed.
#[derive(Clone, Copy, Debug, PartialEq, Eq)]
pub struct CallFailed;

/// The device failed, or had no room.
#[derive(Clone, Copy, Debug, PartialEq, Eq)]
pub struct SinkFailed;

impl From<AllocError> for ShelfError {
    ghost from_gives = { λ _ e. e ≡ Memory };

    fn from(_e: AllocError) -> ShelfError {
        ShelfError::Memory
    }
}

impl<T: Drop> From<AllocFailed<T>> for ShelfError {
    ghost from_gives = { λ _ e. e ≡ Memory };

    fn from(_e: AllocFailed<T>) -> ShelfError {
        ShelfError::Memory
    }
}
