//! What is read from a last table, row by row.

/// What is read.
#[derive(Clone, Copy)]
pub enum Read {
    /// The cells of a plain column.
    Column { column: usize },
    /// The right sides.
    Right,
    /// The cells of the objective row in the artificial columns.
    Multipliers,
}
