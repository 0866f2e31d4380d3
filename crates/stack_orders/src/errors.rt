//! Why a text isn't an order of building.

ghost use Rattle.std.specs.Prelude.{◌≡◌};
ghost use Rattle.stack_orders.specs.declared.errors.OrderError.TheVariants as order_error;

use std::alloc::AllocFailed;

/// Why a text isn't an order of building.
#[derive(Clone, Copy, Debug, PartialEq, Eq)]
pub enum OrderError {
    /// The first line, counted from 1, that isn't ended by a line feed, that names no free block, or that names the
    /// block of an earlier line.
    Line { number: usize },
    /// Memory ran out.
    Memory,
}

impl<T: Drop> From<AllocFailed<T>> for OrderError {
    ghost from_gives = { λ _ e. e ≡ order_error.Memory };

    fn from(_e: AllocFailed<T>) -> OrderError {
        OrderError::Memory
    }
}
