//! The numbers of a row without its right side.

ghost use Rattle.std.specs.Prelude.{◌≡◌, suc, ◌/◌, ◌<◌, ◌^◌, length};
ghost use Rattle.stack_rows.specs.RowForm.{entries_in, AreMarked};

use crate::marks::Marks;

/// The numbers of a row without its right side: as words, or else as numbers of 128 bits.
#[derive(Drop)]
pub struct Entries {
    /// Valid while `wide`.
    pub numbers: Vec<i128>,
    /// Valid while not `wide`.
    pub words: Vec<i64>,
    pub wide: bool,
    /// A place without a mark has 0.
    pub(crate) marks: Marks,
    ghost long: { length words.items ≡ length numbers.items },
    ghost few: { suc (length numbers.items) < 2 ^ 16 },
    ghost marks_long: { length marks.words.items ≡ suc (length numbers.items / 64) },
    ghost marked: { AreMarked (entries_in wide numbers.items words.items) marks.words.items },
}
