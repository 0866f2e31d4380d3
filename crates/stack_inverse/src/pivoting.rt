//! A pivot over the rows of a table.

ghost use Rattle.std.specs.Prelude.{◌≡◌, ◌≢◌, ℕ, suc, ◌<◌, ◌≤◌, ◌/◌, pos, ◌<ℤ◌, length, true, false, OnSome, OnOk};
ghost use Rattle.std.specs.Prelude.{IfErr};
ghost use Rattle.stack_algebra.proofs.OrderedFractions.{ordered_fractions};
ghost use Rattle.stack_rational.specs.Laws.{widest};
ghost use Rattle.stack_rational.specs.TooWide.{is_too_wide};
ghost use Rattle.stack_table.specs.Spots.{cells_spot};
ghost use Rattle.stack_inverse.specs.RowBlock.{IsPivotedCells, IsDividedRow, AreFitting, KeepsZeros};
ghost use Rattle.stack_inverse.specs.CellSteps.{TellsSpot, PivotIsRefused};
ghost use Rattle.stack_inverse.specs.Columns.{multipliers, HaveWidths, IsPut, AreEntered};
ghost use Rattle.stack_inverse.specs.RowsSeen.{seen_of, seen_at, number_in_row, cell_in_row, cells_of_rows, pivot_cell};
ghost use Rattle.stack_inverse.specs.RowsSeen.{IsPivotRow, IsReducedBy, columns_of};
ghost use Rattle.stack_rows.specs.Marks.{mark_in};
ghost use Rattle.stack_rows.specs.RowForm.{number_at};
ghost use Rattle.stack_rows.specs.RowSeen.{numbers_of};

use crate::bounding::{pivot_top, under_fits};
use crate::first::First;
use crate::reducing::reduce;
use crate::row::{PivotRow, TableRow};
use crate::to_visit::ToVisit;
use stack_rows::{Divider, Row};
use stack_table::TurnRefusal;

/// Divides row r, which isn't the objective row, by its cell in a column, whose number is given. Likely gives up
/// if a number of the row in a plain column doesn't fit.
fn divide(
    first: &First,
    row: &TableRow,
    pivot: &mut PivotRow,
    number: i128,
    r: usize,
    column: usize,
) -> Option<()>
    requires width { length (numbers_of row.now.row) ≡ suc (multipliers first.now.rows) }
    requires room { length (numbers_of pivot.old.divided.row) ≡ suc (multipliers first.now.rows) }
    requires row_in { r < first.now.rows }
    requires number { number ≡ number_in_row first.now (seen_of row.now) column }
    requires some { number ≢ pos 0 }
    ensures room { length (numbers_of pivot.new.divided.row) ≡ length (numbers_of pivot.old.divided.row) }
    ensures pivot { OnSome result (IsPivotRow first.now pivot.new) }
    ensures zeros { OnSome result ((q : ℕ) → number_at (numbers_of row.now.row) q ≡ pos 0 →
        number_at (numbers_of pivot.new.divided.row) q ≡ pos 0) }
    ensures ok { OnSome result (IsDividedRow widest (cell_in_row first.now (seen_of row.now)) column
        (pivot_cell first.now pivot.new)) }
{
    pivot.divided.divide(&row.row, number)?;
    pivot.whole_top = pivot_top(first, &pivot.divided.row)?;
    under_fits(&pivot.divided.row);
    Some(())
}

/// Puts numbers over a denominator into row i, whose cells aren't known to fit.
pub fn put_row(rows: &mut [TableRow], i: usize, numbers: &[i128], under: i128)
    requires row_in { i < length rows.old }
    requires width { length (seen_at rows.old i).numbers ≡ length numbers.now }
    requires under { pos 0 <ℤ under }
    ensures { IsPut (seen_at rows.old) i numbers.now under false (seen_at rows.new) }
{
    let row = &mut rows[i];
    row.row.put(numbers, under);
    row.fits = false;
}

/// Puts the pivot row, whose cells fit.
fn put_pivot(rows: &mut [TableRow], i: usize, pivot: &Row)
    requires row_in { i < length rows.old }
    requires width { length (seen_at rows.old i).numbers ≡ length (numbers_of pivot.now) }
    ensures { IsPut (seen_at rows.old) i (numbers_of pivot.now) pivot.now.under true (seen_at rows.new) }
{
    let row = &mut rows[i];
    row.row.copy_from(pivot);
    row.fits = true;
}

/// Reduces each row but the pivot's by the pivot row. `entered` has the numbers of the column, and a row without a mark
/// of `to_visit` has 0 there. `TooWide` names the first operation that is too wide. Gives up as `reduce` does.
fn reduce_others(
    first: &First,
    rows: &mut [TableRow],
    pivot: &PivotRow,
    entered: &[i128],
    to_visit: &ToVisit,
    row: usize,
    column: usize,
) -> Result<(), TurnRefusal>
    requires height { length rows.old ≡ suc first.now.rows }
    requires widths { HaveWidths first.now.rows (seen_at rows.old) }
    requires pivot { IsPivotRow first.now pivot.now }
    requires long { length entered.now ≡ suc (multipliers first.now.rows) }
    requires entered { AreEntered first.now.rows first.now.columns.items
        (seen_at rows.old) column entered.now }
    requires fitting { AreFitting widest (cells_of_rows first.now rows.old) (seen_at rows.old) }
    requires touched_long { length to_visit.now.touched.words.items ≡ suc (suc first.now.rows / 64) }
    requires touched { (i : ℕ) → i ≤ first.now.rows → mark_in to_visit.now.touched.words.items i ≡ 0 →
        number_at entered.now i ≡ pos 0 }
    requires all_fit { to_visit.now.all_fit ≡ true → (i : ℕ) → i ≤ first.now.rows →
        (seen_at rows.old i).fits ≡ true }
    ensures widths { HaveWidths first.now.rows (seen_at rows.new) }
    ensures fitting { AreFitting widest (cells_of_rows first.now rows.new) (seen_at rows.new) }
    ensures fit { OnOk result ((k : ℕ) → k < suc first.now.rows → (k ≢ row) → (seen_at rows.new k).fits ≡ true) }
    ensures ok { OnOk result ((k : ℕ) → k < suc first.now.rows → (k ≢ row) →
        IsReducedBy widest first.now (seen_at rows.old k) pivot.now k column (seen_at rows.new k)) }
    ensures refused { IfErr result (λ e. PivotIsRefused widest (suc first.now.rows) (columns_of first.now)
        (cells_of_rows first.now rows.old) (pivot_cell first.now pivot.now) row column e) }
{
    let divider = Divider::of(pivot.divided.row.under);
    let mut i = to_visit.next_row(0, rows.len());
    while i < rows.len() {
        if i == row {
            i = to_visit.next_row(i + 1, rows.len());
            continue;
        }
        match reduce(first, &mut rows[i], pivot, divider, entered[i], i) {
            Ok(()) => {}
            Err(e) => return Err(e),
        }
        i = to_visit.next_row(i + 1, rows.len());
    }
    Ok(())
}

/// A pivot at a row and a column, whose numbers are `entered`; `pivot` is room for the pivot row, and `to_visit` as in
/// `reduce_others`. `TooWide` names the first operation that is too wide. Gives up if the row can't be divided, or
/// another can't be reduced.
pub fn pivot_rows(
    first: &First,
    rows: &mut [TableRow],
    pivot: &mut PivotRow,
    entered: &[i128],
    to_visit: &ToVisit,
    row: usize,
    column: usize,
) -> Result<(), TurnRefusal>
    requires height { length rows.old ≡ suc first.now.rows }
    requires widths { HaveWidths first.now.rows (seen_at rows.old) }
    requires room { length (numbers_of pivot.old.divided.row) ≡ suc (multipliers first.now.rows) }
    requires fitting { AreFitting widest (cells_of_rows first.now rows.old) (seen_at rows.old) }
    requires long { length entered.now ≡ suc (multipliers first.now.rows) }
    requires entered { AreEntered first.now.rows first.now.columns.items
        (seen_at rows.old) column entered.now }
    requires touched_long { length to_visit.now.touched.words.items ≡ suc (suc first.now.rows / 64) }
    requires touched { (i : ℕ) → i ≤ first.now.rows → mark_in to_visit.now.touched.words.items i ≡ 0 →
        number_at entered.now i ≡ pos 0 }
    requires all_fit { to_visit.now.all_fit ≡ true → (i : ℕ) → i ≤ first.now.rows →
        (seen_at rows.old i).fits ≡ true }
    requires row_in { row < first.now.rows }
    requires some { number_in_row first.now (seen_at rows.old row) column ≢ pos 0 }
    ensures widths { HaveWidths first.now.rows (seen_at rows.new) }
    ensures room { length (numbers_of pivot.new.divided.row) ≡ length (numbers_of pivot.old.divided.row) }
    ensures fitting { AreFitting widest (cells_of_rows first.now rows.new) (seen_at rows.new) }
    ensures fit { OnOk result ((k : ℕ) → k ≤ first.now.rows → (seen_at rows.new k).fits ≡ true) }
    ensures ok { OnOk result (IsPivotedCells widest (suc first.now.rows) (columns_of first.now)
        (cells_of_rows first.now rows.old) row column (cells_of_rows first.now rows.new)) }
    ensures zeros { OnOk result ((k : ℕ) → k ≤ first.now.rows → (k ≢ row) → KeepsZeros (seen_at rows.old k).numbers
        (seen_at rows.new row).numbers (number_in_row first.now (seen_at rows.old k) column)
        (seen_at rows.new k).numbers) }
    ensures own { OnOk result (numbers_of pivot.new.divided.row ≡ (seen_at rows.new row).numbers) }
    ensures own_zeros { OnOk result ((q : ℕ) → number_at (seen_at rows.old row).numbers q ≡ pos 0 →
        number_at (seen_at rows.new row).numbers q ≡ pos 0) }
    ensures refused { IfErr result (λ e. TellsSpot e (cells_spot ordered_fractions (is_too_wide widest)
        (suc first.now.rows) (columns_of first.now) (cells_of_rows first.now rows.old) row column)) }
{
    match divide(first, &rows[row], pivot, entered[row], row, column) {
        Some(()) => {}
        None => return Err(TurnRefusal::Unsettled),
    }
    match reduce_others(first, rows, pivot, entered, to_visit, row, column) {
        Ok(()) => {
            put_pivot(rows, row, &pivot.divided.row);
            Ok(())
        }
        Err(e) => Err(e),
    }
}
