//! Why a run has no end.

use stack_run::RunPlace;

/// Why a run has no end.
#[derive(Clone, Copy, Debug, PartialEq, Eq, Drop)]
pub enum RunError {
    /// The first operation that is too wide.
    TooWide(RunPlace),
    /// A pivot is due, and the budget's pivots are done.
    Spent,
}
