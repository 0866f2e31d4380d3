//! The first rows with the rows of costs below them, and a top of their columns.

ghost use Rattle.std.specs.Prelude.{length};
ghost use Rattle.stack_inverse.specs.Columns.{AreFirst};

use crate::columns::FirstColumn;

/// How many rows of costs stand below the first rows: the objective of phase 1, and that of phase 3.
pub const COSTS: usize = 2;

/// The first rows in the plain columns, and below them the rows of costs.
#[derive(Drop)]
pub struct First {
    pub columns: Vec<FirstColumn>,
    /// At least the sum of the sizes of each column, and at least 1.
    pub top: u128,
    pub rows: usize,
    ghost first: { AreFirst rows (length columns.items) columns.items top },
}
