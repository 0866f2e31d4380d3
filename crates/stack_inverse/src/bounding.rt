//! Whether a row step fits, by tops: those that the rows keep, or lower ones made from their numbers.

ghost use Rattle.std.specs.Prelude.{◌≡◌, suc, ◌≤◌, true, length, unsigned_abs, OnSome, IfSome};
ghost use Rattle.stack_rational.specs.Laws.{widest};
ghost use Rattle.stack_rows.specs.RowForm.{number_at, AreSmallBelow};
ghost use Rattle.stack_rows.specs.RowSeen.{numbers_of};
ghost use Rattle.stack_inverse.specs.RowBlock.{AreWithin, FitsByTop};
ghost use Rattle.stack_inverse.specs.Columns.{multipliers, number_with};

use crate::first::First;
use crate::making::{top_in, whole_top};
use crate::row::PivotRow;
use stack_rows::{Factors, Row, SmallStep, step_fits};

/// Whether a bound on the numbers of a row after a step fits. The answer no isn't pinned.
fn fits_by(first: &First, row: &Row, pivot: &PivotRow, factors: Factors) -> bool
    requires { length (numbers_of row.now) ≡ suc (multipliers first.now.rows) }
    ensures { result ≡ true → FitsByTop widest first.now.rows (numbers_of row.now) row.now.under first.now.top
        factors.times factors.less pivot.now.whole_top }
{
    match whole_top(first, row) {
        Some(own) => step_fits(row.under, factors, own, pivot.whole_top),
        None => false,
    }
}

/// The step of a row if all its numbers are small, in each column: then it fits. Gives up if one may not be.
pub fn small_step(first: &First, row: &Row, pivot: &PivotRow, factors: Factors) -> Option<SmallStep>
    requires width { length (numbers_of row.now) ≡ suc (multipliers first.now.rows) }
    requires kept { AreWithin (number_at (numbers_of pivot.now.divided.row)) pivot.now.whole_top }
    ensures times { IfSome result (λ s. s.times ≡ factors.times) }
    ensures less { IfSome result (λ s. s.less ≡ factors.less) }
    ensures fits { OnSome result (FitsByTop widest first.now.rows (numbers_of row.now) row.now.under first.now.top
        factors.times factors.less pivot.now.whole_top) }
    ensures small { OnSome result (AreSmallBelow (multipliers first.now.rows) factors.times factors.less
        (numbers_of row.now) (numbers_of pivot.now.divided.row)) }
{
    let own = whole_top(first, row)?;
    let step = SmallStep::of(factors, own, pivot.whole_top, row.under.unsigned_abs())?;
    Some(step)
}

/// Whether the step fits, by the top that the row keeps, or else by a lower one.
pub fn fits_for(first: &First, row: &mut Row, pivot: &PivotRow, factors: Factors) -> bool
    requires { length (numbers_of row.old) ≡ suc (multipliers first.now.rows) }
    ensures numbers { numbers_of row.new ≡ numbers_of row.old }
    ensures under { row.new.under ≡ row.old.under }
    ensures fits { result ≡ true → FitsByTop widest first.now.rows (numbers_of row.old) row.old.under first.now.top
        factors.times factors.less pivot.now.whole_top }
{
    if fits_by(first, row, pivot, factors) {
        return true;
    }
    row.tighten();
    fits_by(first, row, pivot, factors)
}

/// The greatest size.
const WIDEST: u128 = i128::MAX as u128;

/// A top of all numbers of a row that fits: by that of its multipliers, or else by each number.
/// Likely gives up if one of them doesn't fit.
pub fn pivot_top(first: &First, row: &Row) -> Option<u128>
    requires { length (numbers_of row.now) ≡ suc (multipliers first.now.rows) }
    ensures within { IfSome result (λ b. AreWithin (number_with first.now.rows first.now.columns.items
        (numbers_of row.now)) b) }
    ensures kept { IfSome result (λ b. AreWithin (number_at (numbers_of row.now)) b) }
    ensures fits { IfSome result (λ b. b ≤ unsigned_abs widest) }
{
    match whole_top(first, row) {
        Some(all) if all <= WIDEST => return Some(all),
        _ => {}
    }
    let all = top_in(first, row)?;
    if all <= WIDEST { Some(all) } else { None }
}

/// The denominator of a row is no greater than the greatest number.
pub fn under_fits(row: &Row)
    ensures { unsigned_abs row.now.under ≤ unsigned_abs widest }
{
    let _under = row.under;
}
