//! Why a model file is refused.

ghost use Rattle.std.specs.Prelude.{◌≡◌};
ghost use Rattle.stack_reader.specs.declared.errors.ReadError.TheVariants.{Memory};

use stack_model::{Key, ModelError, Spot};
use std::alloc::{AllocError, AllocFailed};
use thiserror::Error;

/// The first fault of a model file: the bytes, then the shape of the whole document, then its content. At the top an
/// unknown key comes first, then the forms of `version`, `sway` and the lists; then comes each material, each joint,
/// each block and each load, in each an unknown key first and then its keys one by one. `sway` and `joint` are known in
/// version 2 alone.
#[derive(Clone, Copy, Debug, PartialEq, Eq, Error)]
pub enum ReadError {
    /// The bytes are no TOML document.
    #[error("no TOML document")]
    NotToml,
    /// A key stands here that has no meaning here.
    #[error("unknown key at {spot:?}")]
    UnknownKey { spot: Spot },
    /// The item lacks a key that it must have.
    #[error("no {key:?} at {spot:?}")]
    Missing { spot: Spot, key: Key },
    /// The value at the key has another form.
    #[error("{key:?} at {spot:?} has another form")]
    Kind { spot: Spot, key: Key },
    /// The content has this fault; never `Memory`.
    #[error("{0}")]
    Model(ModelError),
    /// Memory ran out.
    #[error("out of memory")]
    Memory,
}

impl From<AllocError> for ReadError {
    ghost from_gives = { λ _ e. e ≡ Memory };

    fn from(_e: AllocError) -> ReadError {
        ReadError::Memory
    }
}

impl<T: Drop> From<AllocFailed<T>> for ReadError {
    ghost from_gives = { λ _ e. e ≡ Memory };

    fn from(_e: AllocFailed<T>) -> ReadError {
        ReadError::Memory
    }
}
