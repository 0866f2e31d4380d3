//! A pivot row by row: the pivot row is divided, each other row is reduced. A cell of 0 is skipped.

ghost use Rattle.std.specs.Prelude.{◌≡◌, ◌≢◌, ℕ, ◌+◌, ◌*◌, ◌<◌, List, length, pos, Bool, OnOk, MatchResult, Some};
ghost use Rattle.std.specs.Prelude.{None};
ghost use Rattle.stack_algebra.proofs.OrderedFractions.{ordered_fractions};
ghost use Rattle.stack_algebra.specs.Search.{first};
ghost use Rattle.stack_rational.specs.Order.{is_zero};
ghost use Rattle.stack_rational.specs.TooWide.{is_too_wide};
ghost use Rattle.stack_table.specs.Spots.{divided, reduced, divide_spot, reduce_spot, rows_spot};
ghost use Rattle.stack_table.specs.Block.{item_value, cell_of, IsBlock};

use crate::types::{PivotWide, Step};
use stack_rational::Exact;

/// Divides a row.
pub fn divide_row<S: Exact>(cells: &mut [S], divisor: S, row: usize) -> Result<(), PivotWide>
    requires divisor { (S.exact divisor).num ≢ pos 0 }
    ensures block { (marks : List Bool) → IsBlock S.MAX S.exact cells.old marks →
        IsBlock S.MAX S.exact cells.new marks }
    ensures ok { OnOk result ((j : ℕ) → item_value S.exact cells.new j
        ≡ divided ordered_fractions (item_value S.exact cells.old) (S.exact divisor) j) }
    ensures wide { MatchResult result
        (λ _. divide_spot ordered_fractions (is_too_wide S.MAX) (length cells.old) (item_value S.exact cells.old)
        (S.exact divisor) row ≡ None)
        (λ e. divide_spot ordered_fractions (is_too_wide S.MAX) (length cells.old) (item_value S.exact cells.old)
        (S.exact divisor) row ≡ Some e) }
{
    for j in 0..cells.len() {
        match cells[j].quotient(divisor) {
            Ok(cell) => cells[j] = cell,
            Err(_) => return Err(PivotWide {
                row,
                column: j,
                step: Step::Divide,
            }),
        }
    }
    Ok(())
}

/// Subtracts from a row the pivot row times the row's cell in a column.
pub fn reduce_row<S: Exact>(
    cells: &mut [S],
    marks: &mut [bool],
    pivot: &[S],
    column: usize,
    row: usize,
) -> Result<(), PivotWide>
    requires width { length pivot.now ≡ length cells.old }
    requires column_in { column < length cells.old }
    requires block { IsBlock S.MAX S.exact cells.old marks.old }
    ensures block { IsBlock S.MAX S.exact cells.new marks.new }
    ensures ok { OnOk result ((j : ℕ) → item_value S.exact cells.new j
        ≡ reduced ordered_fractions (item_value S.exact cells.old) (item_value S.exact pivot.now)
        (item_value S.exact cells.old column) j) }
    ensures wide { MatchResult result
        (λ _. reduce_spot ordered_fractions (is_too_wide S.MAX) (length cells.old) (item_value S.exact cells.old)
        (item_value S.exact pivot.now) (item_value S.exact cells.old column) row ≡ None)
        (λ e. reduce_spot ordered_fractions (is_too_wide S.MAX) (length cells.old) (item_value S.exact cells.old)
        (item_value S.exact pivot.now) (item_value S.exact cells.old column) row ≡ Some e) }
{
    let factor = cells[column];
    for j in 0..cells.len() {
        let other = pivot[j];
        if other.is_zero() {
            continue;
        }
        let product = match factor.product(other) {
            Ok(product) => product,
            Err(_) => return Err(PivotWide {
                row,
                column: j,
                step: Step::Multiply,
            }),
        };
        match cells[j].difference(product) {
            Ok(cell) => {
                cells[j] = cell;
                marks[j] = cell.is_zero();
            }
            Err(_) => return Err(PivotWide {
                row,
                column: j,
                step: Step::Subtract,
            }),
        }
    }
    Ok(())
}

/// Whether a cell is 0.
fn is_zero_at<S: Exact>(cells: &[S], at: usize) -> bool
    requires { at < length cells.now }
    ensures { result ≡ is_zero (item_value S.exact cells.now at) }
{
    cells[at].is_zero()
}

/// Reduces each of `count` rows that lie one after the other; the first of them has the number `first`.
pub fn reduce_rows<S: Exact>(
    cells: &mut [S],
    marks: &mut [bool],
    pivot: &[S],
    column: usize,
    first: usize,
    count: usize,
) -> Result<(), PivotWide>
    requires whole { length cells.old ≡ count * length pivot.now }
    requires column_in { column < length pivot.now }
    requires numbers { first + count < 18446744073709551616 }
    requires block { IsBlock S.MAX S.exact cells.old marks.old }
    ensures block { IsBlock S.MAX S.exact cells.new marks.new }
    ensures ok { OnOk result ((i j : ℕ) → cell_of S.exact (length pivot.now) cells.new i j
        ≡ reduced ordered_fractions (cell_of S.exact (length pivot.now) cells.old i)
        (item_value S.exact pivot.now) (cell_of S.exact (length pivot.now) cells.old i column) j) }
    ensures wide { MatchResult result
        (λ _. rows_spot ordered_fractions (is_too_wide S.MAX) count (length pivot.now)
        (cell_of S.exact (length pivot.now) cells.old) (item_value S.exact pivot.now) column first ≡ None)
        (λ e. rows_spot ordered_fractions (is_too_wide S.MAX) count (length pivot.now)
        (cell_of S.exact (length pivot.now) cells.old) (item_value S.exact pivot.now) column first ≡ Some e) }
{
    let width = pivot.len();
    for i in 0..count {
        let start = i * width;
        let at = start + column;
        if !is_zero_at(cells, at) {
            let end = start + width;
            reduce_row(
                &mut cells[start..end],
                &mut marks[start..end],
                pivot,
                column,
                first + i,
            )?;
        }
    }
    Ok(())
}
