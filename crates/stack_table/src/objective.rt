//! The later objective rows, written over the last row of a block.

ghost use Rattle.std.specs.Prelude.{◌≡◌, ℕ, suc, ◌+◌, ◌*◌, ◌<◌, ◌≤◌, length, pos, negsuc, cond, eqb, get_or, true};
ghost use Rattle.std.specs.Prelude.{IfSome};
ghost use Rattle.stack_algebra.proofs.Fractions.{of};
ghost use Rattle.stack_algebra.proofs.OrderedFractions.{ordered_fractions};
ghost use Rattle.stack_algebra.specs.Rows.{changed};
ghost use Rattle.stack_algebra.specs.Search.{least};
ghost use Rattle.stack_rational.specs.TooWide.{fraction_fits};
ghost use Rattle.stack_table.specs.Table.{factor_row};
ghost use Rattle.stack_table.specs.Block.{cell_of, item_value, IsBlock};

use stack_rational::Exact;

/// The number -1.
fn minus_one<S: Exact>() -> S
    ensures value { S.exact result ≡ of (negsuc 0) }
    ensures fits { fraction_fits S.MAX (S.exact result) ≡ true }
{
    match S::from_whole(-1) {
        Ok(number) => number,
        Err(_) => unreachable!(),
    }
}

/// Sets each cell of a row to 0.
fn clear_row<S: Exact>(cells: &mut [S], marks: &mut [bool])
    requires block { IsBlock S.MAX S.exact cells.old marks.old }
    ensures block { IsBlock S.MAX S.exact cells.new marks.new }
    ensures ok { (j : ℕ) → item_value S.exact cells.new j ≡ of (pos 0) }
{
    let zero = S::zero();
    for j in 0..cells.len() {
        cells[j] = zero;
        marks[j] = true;
    }
}

/// Sets one cell of a row.
fn set_cell<S: Exact>(cells: &mut [S], marks: &mut [bool], column: usize, cell: S)
    requires column_in { column < length cells.old }
    requires fits { fraction_fits S.MAX (S.exact cell) ≡ true }
    requires block { IsBlock S.MAX S.exact cells.old marks.old }
    ensures block { IsBlock S.MAX S.exact cells.new marks.new }
    ensures ok { (j : ℕ) → item_value S.exact cells.new j
        ≡ cond (eqb j column) (S.exact cell) (item_value S.exact cells.old j) }
{
    cells[column] = cell;
    marks[column] = cell.is_zero();
}

/// The first row whose basic column is this one.
pub fn row_with(basic: &[usize], column: usize) -> Option<usize>
    ensures { result ≡ least (length basic.now) (λ r. eqb (get_or basic.now r 0) column) }
{
    for r in 0..basic.len() {
        if basic[r] == column {
            return Some(r);
        }
    }
    None
}

/// Sets the objective row to 0.
pub fn clear_last<S: Exact>(cells: &mut [S], marks: &mut [bool], rows: usize, width: usize)
    requires whole { length cells.old ≡ suc rows * width }
    requires block { IsBlock S.MAX S.exact cells.old marks.old }
    ensures block { IsBlock S.MAX S.exact cells.new marks.new }
    ensures ok { (i j : ℕ) → cell_of S.exact width cells.new i j
        ≡ changed (cell_of S.exact width cells.old) rows (λ _. of (pos 0)) i j }
{
    let start = rows * width;
    let (_, last) = cells.split_at_mut(start);
    let (_, last_marks) = marks.split_at_mut(start);
    clear_row(last, last_marks);
}

/// Writes a row without its cell in the column over the last row; without a row, -1 in the column alone.
fn write_last<S: Exact>(
    above: &[S],
    marks_above: &[bool],
    last: &mut [S],
    last_marks: &mut [bool],
    column: usize,
    row: Option<usize>,
)
    requires above { IsBlock S.MAX S.exact above.now marks_above.now }
    requires last { IsBlock S.MAX S.exact last.old last_marks.old }
    requires column_in { column < length last.old }
    requires row_in { IfSome row (λ r. r * length last.old + length last.old ≤ length above.now) }
    ensures block { IsBlock S.MAX S.exact last.new last_marks.new }
    ensures ok { (j : ℕ) → item_value S.exact last.new j
        ≡ factor_row ordered_fractions (cell_of S.exact (length last.old) above.now) column row j }
{
    match row {
        Some(r) => {
            let width = last.len();
            let from = r * width;
            let end = from + width;
            last.copy_from_slice(&above[from..end]);
            last_marks.copy_from_slice(&marks_above[from..end]);
            set_cell(last, last_marks, column, S::zero());
        }
        None => {
            clear_row(last, last_marks);
            set_cell(last, last_marks, column, minus_one());
        }
    }
}

/// Sets the objective row to a row without its cell in the column; without a row, to -1 in the column alone.
pub fn set_last<S: Exact>(
    cells: &mut [S],
    marks: &mut [bool],
    rows: usize,
    width: usize,
    column: usize,
    row: Option<usize>,
)
    requires whole { length cells.old ≡ suc rows * width }
    requires column_in { column < width }
    requires row_in { IfSome row (λ r. r < rows) }
    requires block { IsBlock S.MAX S.exact cells.old marks.old }
    ensures block { IsBlock S.MAX S.exact cells.new marks.new }
    ensures ok { (i j : ℕ) → cell_of S.exact width cells.new i j
        ≡ changed (cell_of S.exact width cells.old) rows
        (factor_row ordered_fractions (cell_of S.exact width cells.old) column row) i j }
{
    let start = rows * width;
    let (above, last) = cells.split_at_mut(start);
    let (marks_above, last_marks) = marks.split_at_mut(start);
    write_last(above, marks_above, last, last_marks, column, row);
}
