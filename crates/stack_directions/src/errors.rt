//! Why two numbers name no pair of loads, and why a text has no directions.

ghost use Rattle.std.specs.Prelude.{◌≡◌};
ghost use Rattle.stack_directions.specs.declared.errors.DirectionsError.TheVariants as directions_error;

use std::alloc::AllocFailed;

/// The first of two numbers of loads that names no live load, or one with a component of more than 1,000,000 in size,
/// or the load of the other number.
#[derive(Clone, Copy, Debug, PartialEq, Eq)]
pub struct NoPair {
    pub load: u32,
}

/// Why a text has no directions.
#[derive(Clone, Copy, Debug, PartialEq, Eq)]
pub enum DirectionsError {
    /// The first line, counted from 1, that isn't the line of a direction with its line feed, or the 65th; 1 for a
    /// text without a line.
    Line { number: usize },
    /// Memory ran out.
    Memory,
}

impl<T: Drop> From<AllocFailed<T>> for DirectionsError {
    ghost from_gives = { λ _ e. e ≡ directions_error.Memory };

    fn from(_e: AllocFailed<T>) -> DirectionsError {
        DirectionsError::Memory
    }
}
