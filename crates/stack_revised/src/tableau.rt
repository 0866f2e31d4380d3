//! The revised table as a table of a run.

ghost use Rattle.std.specs.Prelude.{◌≡◌, pos, ◌<ℤ◌, false};
ghost use Rattle.stack_algebra.proofs.Over.{over};
ghost use Rattle.stack_rational.specs.Laws.{widest};
ghost use Rattle.stack_inverse.specs.Seen.{shape_of_revised, table_of_revised, IsEntered};

use stack_bland::Found;
use stack_inverse::RevisedTable;
use stack_rational::OpWide;
use stack_rows::{Ratios, compare};
use stack_table::TurnRefusal;
use stack_tableau::Tableau;
use std::alloc::AllocError;
use std::cmp::Ordering;

/// The revised table of a run.
#[derive(Drop)]
pub struct Revised {
    pub table: RevisedTable,
}

/// The right side of a row beside its positive cell.
#[derive(Copy)]
pub struct RatioPair {
    right: i128,
    cell: i128,
    ghost positive: { pos 0 <ℤ cell },
}

impl Clone for RatioPair {
    ghost use Rattle.std.specs.Prelude.{⊤};

    ghost is_clone = { λ v w. w ≡ v };

    ghost is_infallible = { λ _. ⊤ };

    fn clone(&self) -> Result<Self, AllocError> {
        Ok(*self)
    }
}

impl Tableau for Revised {
    type Ratio = RatioPair;

    ghost shape = { λ t. shape_of_revised t.table };

    ghost table = { λ t. table_of_revised t.table };

    ghost flips = { λ t i. false };

    ghost has_at_hand = { λ t j. IsEntered t.table j };

    ghost ratio = { λ x. over x.right x.cell };

    ghost MAX = { widest };

    ghost settles = { false };

    fn rows(&self) -> usize {
        self.table.rows()
    }

    fn contacts(&self) -> usize {
        self.table.contacts()
    }

    fn plain(&self) -> usize {
        self.table.plain()
    }

    fn has_factor(&self) -> bool {
        self.table.has_factor()
    }

    fn basic(&self, i: usize) -> usize {
        self.table.basic(i)
    }

    fn entering_of(&self, among: usize) -> Found<usize> {
        self.table.entering(among)
    }

    fn enter(&mut self, column: usize) -> Option<()> {
        self.table.enter(column)
    }

    fn ratio_of(&self, i: usize, _column: usize) -> Result<Option<RatioPair>, OpWide> {
        let cell = self.table.entered(i);
        if cell <= 0 {
            return Ok(None);
        }
        let right = self.table.right(i);
        Ok(Some(RatioPair { right, cell }))
    }

    fn order_of(x: RatioPair, y: RatioPair) -> Option<Ordering> {
        compare(Ratios {
            left: x.right,
            left_under: x.cell,
            right: y.right,
            right_under: y.cell,
        })
    }

    fn is_nothing(&self, i: usize, j: usize) -> Option<bool> {
        let number = self.table.number(i, j)?;
        Some(number == 0)
    }

    fn falls_short(&self) -> bool {
        self.table.right(self.table.rows()) < 0
    }

    fn pivot(&mut self, row: usize, column: usize) -> Result<(), TurnRefusal> {
        self.table.pivot(row, column)
    }

    fn clear_objective(&mut self) -> Option<()> {
        self.table.clear_objective();
        Some(())
    }

    fn set_factor_objective(&mut self) -> Option<()> {
        self.table.set_factor_objective()
    }
}
