//! The full table: all its cells stand in it, and it settles all.

ghost use Rattle.std.specs.Prelude.{◌≡◌, true, ⊤};
ghost use Rattle.stack_algebra.proofs.OrderedFractions.{ordered_fractions};
ghost use Rattle.stack_algebra.specs.Ordered.{sign_of};
ghost use Rattle.stack_algebra.specs.Rows.{less};
ghost use Rattle.stack_table.specs.Seen.{shape_of_table, table_of, flips_of};
ghost use Rattle.stack_bland.specs.BySign.{by_sign};

use crate::tableau::Tableau;
use stack_bland::{Found, entering};
use stack_rational::{Exact, OpWide};
use stack_table::{Table, TurnRefusal};
use std::cmp::Ordering;

impl<S: Exact> Tableau for Table<S> {
    type Ratio = S;

    ghost shape = { λ t. shape_of_table t };

    ghost table = { λ t. table_of t };

    ghost flips = { λ t. flips_of t };

    ghost has_at_hand = { λ t j. ⊤ };

    ghost ratio = { λ x. S.exact x };

    ghost MAX = { S.MAX };

    ghost settles = { true };

    fn rows(&self) -> usize {
        self.rows()
    }

    fn contacts(&self) -> usize {
        self.contacts()
    }

    fn plain(&self) -> usize {
        self.plain()
    }

    fn has_factor(&self) -> bool {
        self.has_factor()
    }

    fn basic(&self, i: usize) -> usize {
        self.basic(i)
    }

    fn entering_of(&self, among: usize) -> Found<usize> {
        match entering(self, among) {
            Some(column) => Found::This(column),
            None => Found::Nothing,
        }
    }

    fn enter(&mut self, _column: usize) -> Option<()> {
        Some(())
    }

    fn ratio_of(&self, i: usize, column: usize) -> Result<Option<S>, OpWide> {
        let cell = self.cell(i, column);
        if cell.sign() <= 0 {
            return Ok(None);
        }
        match self.cell(i, self.columns()).quotient(cell) {
            Ok(ratio) => Ok(Some(ratio)),
            Err(e) => Err(e),
        }
    }

    fn order_of(x: S, y: S) -> Option<Ordering> {
        Some(x.order(y))
    }

    fn is_nothing(&self, i: usize, j: usize) -> Option<bool> {
        Some(self.cell(i, j).is_zero())
    }

    fn falls_short(&self) -> bool {
        self.cell(self.rows(), self.columns()).sign() < 0
    }

    fn pivot(&mut self, row: usize, column: usize) -> Result<(), TurnRefusal> {
        match self.pivot(row, column) {
            Ok(()) => Ok(()),
            Err(spot) => Err(TurnRefusal::TooWide(spot)),
        }
    }

    fn clear_objective(&mut self) -> Option<()> {
        self.clear_objective();
        Some(())
    }

    fn set_factor_objective(&mut self) -> Option<()> {
        self.set_factor_objective();
        Some(())
    }
}
