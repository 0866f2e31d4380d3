//! A row of a table.

ghost use Rattle.std.specs.Prelude.{◌<ℤ◌, pos, [], ◌∷◌, ◌++◌};
ghost use Rattle.stack_rows.specs.RowForm.{IsTopped};
ghost use Rattle.stack_rows.specs.EntriesSeen.{entries_of};

use crate::entries::Entries;
use crate::sums::CheckSums;

/// Whole numbers over one positive denominator, the right side apart.
#[derive(Drop)]
pub struct Row {
    pub entries: Entries,
    pub right: i128,
    pub under: i128,
    /// A size that no number but the right side passes.
    pub top: u128,
    /// A hint at what the numbers have in common.
    pub(crate) sums: CheckSums,
    /// How often the row was stepped since its marks were found.
    pub(crate) age: u8,
    ghost positive: { pos 0 <ℤ under },
    ghost topped: { IsTopped (entries_of entries ++ right ∷ []) top },
}
