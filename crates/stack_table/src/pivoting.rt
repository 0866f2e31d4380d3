//! A pivot over the whole block.

ghost use Rattle.std.specs.Prelude.{◌≡◌, ◌≢◌, ℕ, suc, ◌*◌, ◌<◌, length, pos, OnOk, MatchResult, Some, None};
ghost use Rattle.stack_algebra.proofs.OrderedFractions.{ordered_fractions};
ghost use Rattle.stack_algebra.specs.Rows.{next};
ghost use Rattle.stack_rational.specs.TooWide.{is_too_wide};
ghost use Rattle.stack_table.specs.Spots.{cells_spot};
ghost use Rattle.stack_table.specs.Block.{cell_of, IsBlock};

use crate::rows::{divide_row, reduce_rows};
use crate::types::PivotWide;
use stack_rational::Exact;

/// A pivot at a row and a column of a block whose objective row has the number `rows`: the row is divided, each
/// other row is reduced.
pub fn pivot_block<S: Exact>(
    cells: &mut [S],
    marks: &mut [bool],
    width: usize,
    rows: usize,
    row: usize,
    column: usize,
) -> Result<(), PivotWide>
    requires whole { length cells.old ≡ suc rows * width }
    requires row_in { row < rows }
    requires column_in { column < width }
    requires block { IsBlock S.MAX S.exact cells.old marks.old }
    requires cell { (cell_of S.exact width cells.old row column).num ≢ pos 0 }
    ensures block { IsBlock S.MAX S.exact cells.new marks.new }
    ensures ok { OnOk result ((i j : ℕ) → cell_of S.exact width cells.new i j
        ≡ next ordered_fractions (cell_of S.exact width cells.old) row column i j) }
    ensures wide { MatchResult result
        (λ _. cells_spot ordered_fractions (is_too_wide S.MAX) (suc rows) width
        (cell_of S.exact width cells.old) row column ≡ None)
        (λ e. cells_spot ordered_fractions (is_too_wide S.MAX) (suc rows) width
        (cell_of S.exact width cells.old) row column ≡ Some e) }
{
    let start = row * width;
    let (above, rest) = cells.split_at_mut(start);
    let (own, below) = rest.split_at_mut(width);
    let (marks_above, marks_rest) = marks.split_at_mut(start);
    let (_, marks_below) = marks_rest.split_at_mut(width);
    let divisor = own[column];
    divide_row(own, divisor, row)?;
    reduce_rows(above, marks_above, own, column, 0, row)?;
    reduce_rows(below, marks_below, own, column, row + 1, rows - row)
}
