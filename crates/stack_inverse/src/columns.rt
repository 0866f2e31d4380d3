//! The first rows of a problem, column by column.

/// A number in a row.
#[derive(Clone, Copy)]
pub struct Cell {
    pub row: usize,
    pub value: i64,
}

/// A column of the first rows, flipped as they are, by rising rows.
#[derive(Drop)]
pub struct FirstColumn {
    pub cells: Vec<Cell>,
}
