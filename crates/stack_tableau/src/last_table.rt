//! A last table, as what is made of it reads it.

ghost use Rattle.std.specs.Prelude.{◌≡◌, ℕ, ◌+◌, ◌<◌, Bool, true, ltb};
ghost use Rattle.stack_table.specs.Table.{width, columns};
ghost use Rattle.stack_table.specs.Seen.{shape_of_table, table_of, flips_of};

use stack_rational::{Exact, Frac};
use stack_table::Table;

/// The last table of a run, by what extraction asks of it. Each answer is a number of 128 bits, and none is refused.
pub trait LastTable {
    ghost use Rattle.std.specs.Prelude.{◌≡◌, ℕ, ◌+◌, ◌<◌, Bool, true};
    ghost use Rattle.stack_algebra.specs.Fraction.{Fraction};
    ghost use Rattle.stack_table.specs.Table.{Shape, Tabled, plain, columns};

    // Its numbers of rows, of contact columns and of factor columns.
    ghost shape: { Self → Shape };

    // Its cells as exact fractions by row and column, and the basic column of each row.
    ghost table: { Self → Tabled Fraction };

    // Whether a row was flipped.
    ghost flips: { Self → ℕ → Bool };

    // Whether a column can be read, beside the right side and the multipliers.
    ghost reads: { Self → ℕ → Bool };

    fn rows(&self) -> usize
        ensures { result ≡ (shape self.now).rows };

    fn contacts(&self) -> usize
        ensures { result ≡ (shape self.now).contacts };

    /// How many columns aren't artificial.
    fn plain(&self) -> usize
        ensures { result ≡ plain (shape self.now) };

    /// The basic column of a row.
    fn basic(&self, i: usize) -> usize
        requires { i < (shape self.now).rows }
        ensures { result ≡ (table self.now).basic i };

    /// Whether a row was flipped.
    fn is_flipped(&self, i: usize) -> bool
        requires { i < (shape self.now).rows }
        ensures { result ≡ flips self.now i };

    /// The right side of a row.
    fn right(&self, i: usize) -> Frac<i128>
        requires { i < (shape self.now).rows }
        ensures { result ≡ (table self.now).cell i (columns (shape self.now)) };

    /// The objective cell of a row's artificial column.
    fn multiplier(&self, i: usize) -> Frac<i128>
        requires { i < (shape self.now).rows }
        ensures { result ≡ (table self.now).cell (shape self.now).rows (plain (shape self.now) + i) };

    /// A row's cell in a column that can be read.
    fn cell_of(&self, i: usize, j: usize) -> Frac<i128>
        requires i_in { i < (shape self.now).rows }
        requires j_read { reads self.now j ≡ true }
        ensures { result ≡ (table self.now).cell i j };
}

impl<S: Exact> LastTable for Table<S> {
    ghost shape = { λ t. shape_of_table t };

    ghost table = { λ t. table_of t };

    ghost flips = { λ t. flips_of t };

    // Each column can be read.
    ghost reads = { λ t j. ltb j (width (shape_of_table t)) };

    fn rows(&self) -> usize {
        self.rows()
    }

    fn contacts(&self) -> usize {
        self.contacts()
    }

    fn plain(&self) -> usize {
        self.plain()
    }

    fn basic(&self, i: usize) -> usize {
        self.basic(i)
    }

    fn is_flipped(&self, i: usize) -> bool {
        self.flipped(i)
    }

    fn right(&self, i: usize) -> Frac<i128> {
        self.cell(i, self.columns()).widened()
    }

    fn multiplier(&self, i: usize) -> Frac<i128> {
        self.cell(self.rows(), self.plain() + i).widened()
    }

    fn cell_of(&self, i: usize, j: usize) -> Frac<i128> {
        self.cell(i, j).widened()
    }
}
