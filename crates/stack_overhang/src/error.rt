//! Why no built-in model was made.

use std::alloc::AllocError;
use thiserror::Error;

/// Why there is no stack or wall.
#[derive(Clone, Copy, Debug, PartialEq, Eq, Error)]
pub enum StackError {
    /// The argument is outside its range.
    #[error("the size is outside its limits")]
    Size,
    /// Memory ran out.
    #[error("out of memory")]
    Memory,
}

impl From<AllocError> for StackError {
    ghost use Rattle.std.specs.Prelude.{◌≡◌};
    ghost use Rattle.stack_overhang.specs.declared.error.StackError.TheVariants.{Memory};

    ghost from_gives = { λ _ e. e ≡ Memory };

    fn from(_e: AllocError) -> StackError {
        StackError::Memory
    }
}
