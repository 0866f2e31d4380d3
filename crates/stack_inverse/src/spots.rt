//! The cells of a row step, one by one.

ghost use Rattle.std.specs.Prelude.{◌≡◌, suc, true, pos, ◌*ℤ◌, ◌<ℤ◌, length, None, IfSome};
ghost use Rattle.stack_algebra.proofs.Over.{over};
ghost use Rattle.stack_algebra.proofs.OrderedFractions.{ordered_fractions};
ghost use Rattle.stack_rational.specs.Laws.{widest};
ghost use Rattle.stack_rational.specs.TooWide.{is_too_wide};
ghost use Rattle.stack_table.specs.Spots.{reduce_spot};
ghost use Rattle.stack_bland.specs.Found.{TellsFound};
ghost use Rattle.stack_rows.specs.RowSeen.{numbers_of};
ghost use Rattle.stack_inverse.specs.Columns.{multipliers, cell_with};
ghost use Rattle.stack_inverse.specs.RowsSeen.{columns_of};
ghost use Rattle.stack_inverse.specs.CellSteps.{TellsCell, TellsStep};

use crate::first::First;
use crate::making::row_number;
use stack_bland::Found;
use stack_rational::{Exact, Frac, over};
use stack_rows::{Cells, Factors, Row, step_fits};
use stack_table::{PivotWide, Step};

/// What a row step is made of: the denominators of the row and of the pivot row, the row's number in the pivot's
/// column, its cell there, and the factors.
#[derive(Drop)]
pub struct RowStep {
    pub under: i128,
    pub pivot_under: i128,
    pub number: i128,
    pub cell: Frac<i128>,
    pub factors: Factors,
    ghost positive: { pos 0 <ℤ under },
    ghost pivot_positive: { pos 0 <ℤ pivot_under },
    ghost is_cell: { cell ≡ over number under },
    ghost some: { pos 0 <ℤ factors.times },
    ghost cross: { number *ℤ factors.times ≡ factors.less *ℤ pivot_under },
}

/// The cells of a row and of the pivot row in a column, and the row's cell in the pivot's column.
#[derive(Clone, Copy)]
struct ColumnCells {
    own: Frac<i128>,
    pivot: Frac<i128>,
    factor: Frac<i128>,
}

/// The cell minus the factor times the pivot row's, or the step that is too wide.
fn reduced(c: ColumnCells) -> Result<Frac<i128>, Step>
    ensures { TellsCell result c.own c.pivot c.factor }
{
    let product = match c.factor.product(c.pivot) {
        Ok(product) => product,
        Err(_) => return Err(Step::Multiply),
    };
    match c.own.difference(product) {
        Ok(rest) => Ok(rest),
        Err(_) => Err(Step::Subtract),
    }
}

/// A number over a positive one. Gives up at the least number of all.
pub fn cell(number: i128, under: i128) -> Option<Frac<i128>>
    requires { pos 0 <ℤ under }
    ensures { IfSome result (λ x. x ≡ over number under) }
{
    if number == i128::MIN {
        return None;
    }
    Some(over(number, under))
}

/// The cell that a row step makes of two numbers of a column, or the step that is too wide. Gives up as `cell` does.
pub fn reduced_cell(s: &RowStep, own: i128, pivot: i128) -> Option<Result<Frac<i128>, Step>>
    ensures { IfSome result (λ r. TellsCell r (over own s.now.under) (over pivot s.now.pivot_under)
        (over s.now.number s.now.under)) }
{
    let own = cell(own, s.under)?;
    let pivot = cell(pivot, s.pivot_under)?;
    Some(reduced(ColumnCells {
        own,
        pivot,
        factor: s.cell,
    }))
}

/// Whether the result of a row step on two numbers of a column fits, and its denominator. The answer no isn't pinned.
pub fn numbers_fit(s: &RowStep, own: i128, pivot: i128) -> bool
    ensures { result ≡ true → TellsStep None (over own s.now.under) (over pivot s.now.pivot_under)
        (over s.now.number s.now.under) }
{
    step_fits(s.under, s.factors, own.unsigned_abs(), pivot.unsigned_abs())
}

impl Cells for RowStep {
    ghost times = { λ s. s.pivot_under };

    ghost less = { λ s. s.number };

    ghost over = { λ s. s.under *ℤ s.pivot_under };

    fn cell(&self, own: i128, other: i128) -> Option<Frac<i128>> {
        match reduced_cell(self, own, other)? {
            Ok(reduced) => Some(reduced),
            Err(_) => None,
        }
    }
}

/// The step in a column that is too wide, if there is one. Gives up as `cell` does.
fn step_spot(s: &RowStep, own: i128, pivot: i128) -> Option<Option<Step>>
    ensures { IfSome result (λ o. TellsStep o (over own s.now.under) (over pivot s.now.pivot_under)
        (over s.now.number s.now.under)) }
{
    if numbers_fit(s, own, pivot) {
        return Some(None);
    }
    match reduced_cell(s, own, pivot)? {
        Ok(_) => Some(None),
        Err(step) => Some(Some(step)),
    }
}

/// The first step of row i that is too wide, if there is one. Likely gives up if a number of either row doesn't fit.
pub fn row_spot(first: &First, row: &Row, pivot: &Row, s: &RowStep, i: usize) -> Found<PivotWide>
    requires width { length (numbers_of row.now) ≡ suc (multipliers first.now.rows) }
    requires pivot_width { length (numbers_of pivot.now) ≡ suc (multipliers first.now.rows) }
    ensures { TellsFound result (reduce_spot ordered_fractions (is_too_wide widest) (columns_of first.now)
        (cell_with first.now.rows first.now.columns.items (numbers_of row.now) s.now.under)
        (cell_with first.now.rows first.now.columns.items (numbers_of pivot.now) s.now.pivot_under)
        (over s.now.number s.now.under) i) }
{
    let columns = match first.columns.len().checked_add(first.rows + 1) {
        Some(columns) => columns,
        None => return Found::GaveUp,
    };
    for j in 0..columns {
        let numbers = (row_number(first, row, j), row_number(first, pivot, j));
        let step = match numbers {
            (Some(own), Some(other)) => step_spot(s, own, other),
            _ => return Found::GaveUp,
        };
        match step {
            Some(None) => {}
            Some(Some(step)) => return Found::This(PivotWide {
                row: i,
                column: j,
                step,
            }),
            None => return Found::GaveUp,
        }
    }
    Found::Nothing
}
