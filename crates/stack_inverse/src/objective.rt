//! The later objective rows.

ghost use Rattle.std.specs.Prelude.{◌≡◌, ℕ, suc, ◌<◌, length, pos, ◌<ℤ◌, eqb, cond, IfSome};
ghost use Rattle.stack_rows.specs.RowForm.{number_at};
ghost use Rattle.stack_rows.specs.RowSeen.{numbers_of};
ghost use Rattle.stack_inverse.specs.Columns.{multipliers, IsFactorRow, HaveWidths};
ghost use Rattle.stack_inverse.specs.RowsSeen.{seen_at};

use crate::first::First;
use crate::making::number_of;
use crate::row::TableRow;
use num_traits::CheckedAdd;
use stack_rows::Row;

pub fn clear_row(row: &mut [i128])
    ensures { (j : ℕ) → number_at row.new j ≡ pos 0 }
{
    for j in 0..row.len() {
        row[j] = 0;
    }
}

/// A number in one column, and 0 in the others.
pub fn set_only(row: &mut [i128], column: usize, number: i128)
    requires { column < length row.old }
    ensures { (j : ℕ) → number_at row.new j ≡ cond (eqb j column) number (pos 0) }
{
    clear_row(row);
    row[column] = number;
}

/// Writes all numbers of a row, the right side last.
fn copy_numbers(row: &Row, numbers: &mut [i128])
    requires { length numbers.old ≡ length (numbers_of row.now) }
    ensures { numbers.new ≡ (numbers_of row.now) }
{
    for j in 0..numbers.len() {
        numbers[j] = row.number(j);
    }
}

/// The numbers of a row whose cell in the column has to be 1, and once the costs of phase 3, with its denominator;
/// without a row these costs alone, over 1. Gives up if that cell isn't 1, if a product or a partial sum of its number
/// doesn't fit, or if the multiplier of these costs plus the denominator doesn't.
pub fn factor_row(
    first: &First,
    rows: &[TableRow],
    numbers: &mut [i128],
    column: usize,
    row: Option<usize>,
) -> Option<i128>
    requires width { length numbers.old ≡ suc (multipliers first.now.rows) }
    requires widths { HaveWidths first.now.rows (seen_at rows.now) }
    requires column_in { column < length first.now.columns.items }
    requires row_in { IfSome row (λ r. r < first.now.rows) }
    requires height { length rows.now ≡ suc first.now.rows }
    ensures positive { IfSome result (λ d. pos 0 <ℤ d) }
    ensures ok { IfSome result (λ d. IsFactorRow first.now.rows first.now.columns.items
        (seen_at rows.now) column row numbers.new d) }
{
    match row {
        Some(r) => {
            let cell = number_of(first, &rows[r], column)?;
            copy_numbers(&rows[r].row, numbers);
            let under = rows[r].row.under;
            let at = first.rows + 1;
            let cost = numbers[at];
            numbers[at] = CheckedAdd::checked_add(&cost, &under)?;
            if cell == under { Some(under) } else { None }
        }
        None => {
            set_only(numbers, first.rows + 1, 1);
            Some(1)
        }
    }
}
