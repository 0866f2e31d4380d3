//! A row of the table, and the pivot row.
//!
//! A `top` is an upper bound on the sizes of some numbers: `top` of a row is one of its multipliers, `whole_top` of its
//! numbers in all columns and of its multipliers, and `top` of the first rows of the sums of sizes of their columns.

use stack_rows::{Pivot, Row};

/// A row of the table.
#[derive(Drop)]
pub struct TableRow {
    pub row: Row,
    /// Whether all its cells are known to fit.
    pub fits: bool,
}

/// The pivot row, divided by its number in the pivot's column; before a pivot it is room for that.
#[derive(Drop)]
pub struct PivotRow {
    pub divided: Pivot,
    pub whole_top: u128,
}
