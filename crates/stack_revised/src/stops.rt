//! Why a run of a problem has no end.

ghost use Rattle.std.specs.Prelude.{◌≡◌};
ghost use Rattle.stack_revised.specs.declared.stops.RevisedStop.TheVariants as revised_stop;

use stack_run::RunPlace;
use std::alloc::{AllocError, AllocFailed};

/// Why a run of a problem has no end.
#[derive(Clone, Copy, Debug, PartialEq, Eq, Drop)]
pub enum RevisedStop {
    /// The first operation that is too wide for 128 bits.
    TooWide(RunPlace),
    /// A pivot is due, and the budget's pivots are done.
    Spent,
    /// The run is given up, mostly because a number that it makes doesn't fit. No clause says when, and it says
    /// nothing about the written run.
    Unsettled,
    Memory,
}

impl From<AllocError> for RevisedStop {
    ghost from_gives = { λ _ e. e ≡ revised_stop.Memory };

    fn from(_e: AllocError) -> RevisedStop {
        RevisedStop::Memory
    }
}

impl<T: Drop> From<AllocFailed<T>> for RevisedStop {
    ghost from_gives = { λ _ e. e ≡ revised_stop.Memory };

    fn from(_e: AllocFailed<T>) -> RevisedStop {
        RevisedStop::Memory
    }
}
