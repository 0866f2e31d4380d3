//! What is read from the last table.

ghost use Rattle.std.specs.Prelude.{◌≡◌};
ghost use Rattle.stack_inverse.specs.Seen.{table_of_revised};
ghost use Rattle.stack_revised.specs.Ended.{shape_of_last, flips_of_last, reads_column};

use crate::last::Last;
use stack_rational::Frac;
use stack_tableau::LastTable;

impl LastTable for Last {
    ghost shape = { λ l. shape_of_last l };

    ghost table = { λ l. table_of_revised l.table };

    ghost flips = { λ l. flips_of_last l };

    // The column of a ray.
    ghost reads = { λ l j. reads_column l.kind j };

    fn rows(&self) -> usize {
        self.table.rows()
    }

    fn contacts(&self) -> usize {
        self.table.contacts()
    }

    fn plain(&self) -> usize {
        self.table.plain()
    }

    fn basic(&self, i: usize) -> usize {
        self.table.basic(i)
    }

    fn is_flipped(&self, i: usize) -> bool {
        self.flipped[i]
    }

    fn right(&self, i: usize) -> Frac<i128> {
        self.right[i]
    }

    fn multiplier(&self, i: usize) -> Frac<i128> {
        self.multipliers[i]
    }

    fn cell_of(&self, i: usize, _j: usize) -> Frac<i128> {
        self.column[i]
    }
}
