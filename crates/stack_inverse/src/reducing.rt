//! A row step: the pivot row times a row's cell in the pivot's column is taken from the row.

ghost use Rattle.std.specs.Prelude.{◌≡◌, ℕ, suc, ◌≤◌, ◌*ℤ◌, true, false, None, length, OnSome, OnOk, IfErr};
ghost use Rattle.stack_algebra.proofs.Over.{over};
ghost use Rattle.stack_algebra.proofs.OrderedFractions.{ordered_fractions};
ghost use Rattle.stack_rational.specs.Order.{is_zero_whole};
ghost use Rattle.stack_rational.specs.Laws.{widest};
ghost use Rattle.stack_rational.specs.TooWide.{is_too_wide};
ghost use Rattle.stack_table.specs.Spots.{reduce_spot};
ghost use Rattle.stack_rows.specs.RowForm.{IsTaken};
ghost use Rattle.stack_rows.specs.EntriesSeen.{entries_of};
ghost use Rattle.stack_rows.specs.RowSeen.{numbers_of};
ghost use Rattle.stack_inverse.specs.RowBlock.{AllNumbersFit};
ghost use Rattle.stack_inverse.specs.Columns.{multipliers};
ghost use Rattle.stack_inverse.specs.CellSteps.{TellsSpot};
ghost use Rattle.stack_inverse.specs.RowsSeen.{seen_of, number_in_row, cell_in_row, pivot_cell, IsPivotRow};
ghost use Rattle.stack_inverse.specs.RowsSeen.{IsReducedBy, columns_of};

use crate::bounding::{fits_for, small_step, under_fits};
use crate::first::First;
use crate::row::{PivotRow, TableRow};
use crate::spots::{RowStep, cell, numbers_fit, reduced_cell, row_spot};
use stack_bland::Found;
use stack_rows::{Divider, Entries, Pivot, Row, factors_of, remake_row};
use stack_table::TurnRefusal;

/// Whether all numbers of a step but the right side fit, one by one: a hint.
fn entries_fit(entries: &Entries, pivot: &Entries, s: &RowStep) -> bool
    requires { length (entries_of pivot.now) ≡ length (entries_of entries.now) }
{
    for j in 0..entries.count() {
        if !numbers_fit(s, entries.at(j), pivot.at(j)) {
            return false;
        }
    }
    true
}

/// Subtracts a multiple of the pivot row from a row: number by number, but the right side becomes the reduced cell.
/// Gives up if a number doesn't fit.
fn take_by_cell(row: &mut Row, pivot: &Pivot, s: &RowStep) -> Option<()>
    requires width { length (numbers_of pivot.now.row) ≡ length (numbers_of row.old) }
    requires under { s.now.under ≡ row.old.under }
    ensures width { length (numbers_of row.new) ≡ length (numbers_of row.old) }
    ensures ok { OnSome result (IsTaken (numbers_of row.old) (row.old.under *ℤ s.now.factors.times)
        (numbers_of pivot.now.row) s.now.factors.times s.now.factors.less (numbers_of row.new) row.new.under) }
{
    match reduced_cell(s, row.right, pivot.row.right)? {
        Ok(right) => row.take_apart(pivot, s.factors, right),
        Err(_) => None,
    }
}

/// The same, but the right side is also made from its number if that fits.
fn take_numbers(row: &mut Row, pivot: &Pivot, s: &RowStep) -> Option<()>
    requires width { length (numbers_of pivot.now.row) ≡ length (numbers_of row.old) }
    requires under { s.now.under ≡ row.old.under }
    ensures width { length (numbers_of row.new) ≡ length (numbers_of row.old) }
    ensures ok { OnSome result (IsTaken (numbers_of row.old) (row.old.under *ℤ s.now.factors.times)
        (numbers_of pivot.now.row) s.now.factors.times s.now.factors.less (numbers_of row.new) row.new.under) }
{
    if numbers_fit(s, row.right, pivot.row.right) {
        row.take(pivot, s.factors)
    } else {
        take_by_cell(row, pivot, s)
    }
}

/// Subtracts a multiple of the pivot row from a row: number by number if all but the right side fit, one by one, and
/// otherwise from the reduced cells. Likely gives up if these have no common denominator with which all numbers fit.
fn take_or_remake(row: &mut Row, pivot: &Pivot, s: &RowStep) -> Option<()>
    requires width { length (numbers_of pivot.now.row) ≡ length (numbers_of row.old) }
    requires under { s.now.under ≡ row.old.under }
    ensures width { length (numbers_of row.new) ≡ length (numbers_of row.old) }
    ensures ok { OnSome result (IsTaken (numbers_of row.old) (s.now.under *ℤ s.now.pivot_under)
        (numbers_of pivot.now.row) s.now.pivot_under s.now.number (numbers_of row.new) row.new.under) }
{
    if entries_fit(&row.entries, &pivot.row.entries, s) {
        take_numbers(row, pivot, s)?;
        Some(())
    } else {
        remake_row(row, pivot, s)
    }
}

/// The same cell by cell. `TooWide` names the first operation that is too wide. Likely given up if the reduced cells
/// have no common denominator with which all numbers fit.
fn step_by_cells(
    first: &First,
    row: &mut TableRow,
    pivot: &PivotRow,
    s: &RowStep,
    i: usize,
) -> Result<(), TurnRefusal>
    requires width { length (numbers_of row.old.row) ≡ suc (multipliers first.now.rows) }
    requires pivot { IsPivotRow first.now pivot.now }
    requires under { s.now.under ≡ row.old.row.under }
    requires pivot_under { s.now.pivot_under ≡ pivot.now.divided.row.under }
    ensures width { length (numbers_of row.new.row) ≡ length (numbers_of row.old.row) }
    ensures fits { row.new.fits ≡ row.old.fits }
    ensures ok { OnOk result (IsTaken (numbers_of row.old.row) (s.now.under *ℤ s.now.pivot_under)
        (numbers_of pivot.now.divided.row) s.now.pivot_under s.now.number (numbers_of row.new.row) row.new.row.under) }
    ensures none { OnOk result (reduce_spot ordered_fractions (is_too_wide widest) (columns_of first.now)
        (cell_in_row first.now (seen_of row.old)) (pivot_cell first.now pivot.now)
        (over s.now.number s.now.under) i ≡ None) }
    ensures refused { IfErr result (λ e. TellsSpot e (reduce_spot ordered_fractions (is_too_wide widest)
        (columns_of first.now) (cell_in_row first.now (seen_of row.old)) (pivot_cell first.now pivot.now)
        (over s.now.number s.now.under) i)) }
{
    match row_spot(first, &row.row, &pivot.divided.row, s, i) {
        Found::Nothing => {}
        Found::This(spot) => return Err(TurnRefusal::TooWide(spot)),
        Found::GaveUp => return Err(TurnRefusal::Unsettled),
    }
    match take_or_remake(&mut row.row, &pivot.divided, s) {
        Some(()) => Ok(()),
        None => Err(TurnRefusal::Unsettled),
    }
}

/// The same by tops, or cell by cell if the step doesn't fit by these. `number` is the row's in the pivot's column.
fn step(
    first: &First,
    row: &mut TableRow,
    pivot: &PivotRow,
    divider: Divider,
    number: i128,
    i: usize,
) -> Result<(), TurnRefusal>
    requires width { length (numbers_of row.old.row) ≡ suc (multipliers first.now.rows) }
    requires pivot { IsPivotRow first.now pivot.now }
    requires divider { divider.by ≡ pivot.now.divided.row.under }
    ensures width { length (numbers_of row.new.row) ≡ length (numbers_of row.old.row) }
    ensures fits { row.new.fits ≡ row.old.fits }
    ensures ok { OnOk result ((column : ℕ) → number ≡ number_in_row first.now (seen_of row.old) column →
        IsReducedBy widest first.now (seen_of row.old) pivot.now i column (seen_of row.new)) }
    ensures refused { IfErr result (λ e. (column : ℕ) → number ≡ number_in_row first.now (seen_of row.old) column →
        TellsSpot e (reduce_spot ordered_fractions (is_too_wide widest) (columns_of first.now)
        (cell_in_row first.now (seen_of row.old)) (pivot_cell first.now pivot.now)
        (cell_in_row first.now (seen_of row.old) column) i)) }
{
    let factors = match factors_of(number, divider) {
        Some(factors) => factors,
        None => return Err(TurnRefusal::Unsettled),
    };
    match small_step(first, &row.row, pivot, factors) {
        Some(step) => return match row.row.take_small(&pivot.divided, &step) {
            Some(()) => Ok(()),
            None => Err(TurnRefusal::Unsettled),
        },
        None => {}
    }
    if fits_for(first, &mut row.row, pivot, factors) {
        return match row.row.take(&pivot.divided, factors) {
            Some(()) => Ok(()),
            None => Err(TurnRefusal::Unsettled),
        };
    }
    let cell = match cell(number, row.row.under) {
        Some(cell) => cell,
        None => return Err(TurnRefusal::Unsettled),
    };
    let s = RowStep {
        under: row.row.under,
        pivot_under: pivot.divided.row.under,
        number,
        cell,
        factors,
    };
    match step_by_cells(first, row, pivot, &s, i) {
        Ok(()) => {
            under_fits(&row.row);
            Ok(())
        }
        Err(e) => Err(e),
    }
}

/// Whether a row with this number in the pivot's column stays as it is.
fn stays(row: &TableRow, number: i128) -> bool
    ensures zero { result ≡ true → is_zero_whole number ≡ true }
    ensures fits { result ≡ true → row.now.fits ≡ true }
{
    number == 0 && row.fits
}

/// Subtracts from row i the pivot row times the row's cell in a column, whose number is given. A row that is known to
/// fit stays as it is if its cell is 0, and one that is reduced fits; one whose step is refused is spent, and isn't
/// known to fit.
pub fn reduce(
    first: &First,
    row: &mut TableRow,
    pivot: &PivotRow,
    divider: Divider,
    number: i128,
    i: usize,
) -> Result<(), TurnRefusal>
    requires width { length (numbers_of row.old.row) ≡ suc (multipliers first.now.rows) }
    requires pivot { IsPivotRow first.now pivot.now }
    requires divider { divider.by ≡ pivot.now.divided.row.under }
    ensures width { length (numbers_of row.new.row) ≡ length (numbers_of row.old.row) }
    ensures unfit { IfErr result (λ e. row.new.fits ≡ false) }
    ensures fitting { OnOk result (row.new.fits ≡ true) }
    ensures ok { OnOk result ((column : ℕ) → number ≡ number_in_row first.now (seen_of row.old) column →
        (row.old.fits ≡ true → AllNumbersFit widest (cell_in_row first.now (seen_of row.old))) →
        IsReducedBy widest first.now (seen_of row.old) pivot.now i column (seen_of row.new)) }
    ensures refused { IfErr result (λ e. (column : ℕ) → number ≡ number_in_row first.now (seen_of row.old) column →
        TellsSpot e (reduce_spot ordered_fractions (is_too_wide widest) (columns_of first.now)
        (cell_in_row first.now (seen_of row.old)) (pivot_cell first.now pivot.now)
        (cell_in_row first.now (seen_of row.old) column) i)) }
{
    if stays(row, number) {
        return Ok(());
    }
    row.fits = false;
    match step(first, row, pivot, divider, number, i) {
        Ok(()) => {
            row.fits = true;
            Ok(())
        }
        Err(e) => Err(e),
    }
}
