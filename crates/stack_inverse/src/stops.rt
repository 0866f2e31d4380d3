//! Why there is no table of a problem.

ghost use Rattle.std.specs.Prelude.{◌≡◌};
ghost use Rattle.stack_inverse.specs.declared.stops.NoTable.TheVariants as no_table;

use std::alloc::{AllocError, AllocFailed};

/// Why a problem has no table.
#[derive(Clone, Copy, Debug, PartialEq, Eq, Drop)]
pub enum NoTable {
    /// The table is given up, mostly because one of its numbers doesn't fit. It says nothing about the written run.
    Unsettled,
    Memory,
}

impl From<AllocError> for NoTable {
    ghost from_gives = { λ _ e. e ≡ no_table.Memory };

    fn from(_e: AllocError) -> NoTable {
        NoTable::Memory
    }
}

impl<T: Drop> From<AllocFailed<T>> for NoTable {
    ghost from_gives = { λ _ e. e ≡ no_table.Memory };

    fn from(_e: AllocFailed<T>) -> NoTable {
        NoTable::Memory
    }
}
