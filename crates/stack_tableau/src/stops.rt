//! Why a run has no end.

use stack_run::RunPlace;

/// Why a run has no end.
#[derive(Clone, Copy, Drop)]
pub enum RunStop {
    /// The first operation that is too wide.
    TooWide(RunPlace),
    /// A pivot is due, and the budget's pivots are done.
    Spent,
    /// The run is given up, mostly since a number that the table makes doesn't fit. No clause says when, and it says
    /// nothing of the written run.
    Unsettled,
}
