//! The last table of a run, and what is read from it.

ghost use Rattle.std.specs.Prelude.{◌≡◌, ℕ, ◌+◌, ◌<◌, length, get_or};
ghost use Rattle.stack_table.specs.Table.{plain, columns};
ghost use Rattle.stack_inverse.specs.Seen.{shape_of_revised, table_of_revised};
ghost use Rattle.stack_revised.specs.NoCell.{nothing};
ghost use Rattle.stack_tableau.specs.declared.end_kind.EndKind.TheVariants as end_kind;

use stack_inverse::RevisedTable;
use stack_rational::Frac;
use stack_tableau::EndKind;

/// How a run ends, and its last table.
#[derive(Drop)]
pub struct Last {
    pub kind: EndKind,
    pub table: RevisedTable,
    /// Whether each row was flipped.
    pub flipped: Vec<bool>,
    /// The right sides, row by row.
    pub right: Vec<Frac<i128>>,
    /// The cells of the objective row in the artificial columns.
    pub multipliers: Vec<Frac<i128>>,
    /// The cells of a ray's column, row by row.
    pub column: Vec<Frac<i128>>,
    ghost flips: { length flipped.items ≡ (shape_of_revised table).rows },
    ghost right_long: { length right.items ≡ (shape_of_revised table).rows },
    ghost rights: { (i : ℕ) → i < (shape_of_revised table).rows → get_or right.items i nothing
        ≡ (table_of_revised table).cell i (columns (shape_of_revised table)) },
    ghost multipliers_long: { length multipliers.items ≡ (shape_of_revised table).rows },
    ghost multiplied: { (i : ℕ) → i < (shape_of_revised table).rows → get_or multipliers.items i nothing
        ≡ (table_of_revised table).cell (shape_of_revised table).rows (plain (shape_of_revised table) + i) },
    ghost long: { (c : ℕ) → kind ≡ end_kind.Ray c → length column.items ≡ (shape_of_revised table).rows },
    ghost read: { (c : ℕ) → kind ≡ end_kind.Ray c → (i : ℕ) → i < (shape_of_revised table).rows →
        get_or column.items i nothing ≡ (table_of_revised table).cell i c },
}
