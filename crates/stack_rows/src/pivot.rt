//! The row of the pivot.

ghost use Rattle.std.specs.Prelude.{◌≡◌, length};
ghost use Rattle.stack_rows.specs.RowForm.{AreListed};
ghost use Rattle.stack_rows.specs.EntriesSeen.{entries_of};

use crate::row::Row;

/// The row of the pivot, with what makes it quick to take from many rows.
#[derive(Drop)]
pub struct Pivot {
    pub row: Row,
    /// Its numbers without the right side, always as numbers of 128 bits.
    pub numbers: Vec<i128>,
    /// The places at which it has something, first of all.
    pub list: Vec<u16>,
    /// How many places these are.
    pub listed: usize,
    ghost same: { numbers.items ≡ entries_of row.entries },
    ghost room: { length list.items ≡ length numbers.items },
    ghost places: { AreListed numbers.items list.items listed },
}
