//! Numbers of the plain columns, made from a row's multipliers, and their top.

ghost use Rattle.std.specs.Prelude.{◌≡◌, ◌≢◌, ℕ, suc, ◌+◌, ◌-◌, ◌^◌, ◌<◌, ◌≤◌, ◌+ℤ◌, ◌*ℤ◌, length};
ghost use Rattle.std.specs.Prelude.{unsigned_abs, ◌/◌, pos, OnSome, IfSome};
ghost use Rattle.std.specs.Int.{w128, int_wrap};
ghost use Rattle.std.specs.List.{AllByRecursion};
ghost use Rattle.stack_rational.specs.Laws.{widest};
ghost use Rattle.stack_algebra.specs.Sums.{sum_of};
ghost use Rattle.stack_rows.specs.RowForm.{number_at};
ghost use Rattle.stack_rows.specs.EntriesSeen.{entries_of};
ghost use Rattle.stack_rows.specs.RowSeen.{numbers_of};
ghost use Rattle.stack_rows.specs.Marks.{mark_in};
ghost use Rattle.stack_inverse.specs.RowBlock.{AreWithin, IsWholeTop};
ghost use Rattle.stack_inverse.specs.Columns.{multipliers, number_with, cells_at, HaveWidths, AreEntered};
ghost use Rattle.stack_inverse.specs.RowsSeen.{seen_of, seen_at, number_in_row};

use crate::columns::Cell;
use crate::first::First;
use crate::objective::clear_row;
use crate::row::TableRow;
use num_traits::CheckedAdd;
use stack_rows::{Entries, Marks, Row, SMALL, product, product_of, size_product};

/// A sum plus the product of a number and a word.
fn added(sum: i128, number: i128, by: i64) -> Option<i128>
    ensures { IfSome result (λ r. r ≡ sum +ℤ number *ℤ by) }
{
    CheckedAdd::checked_add(&sum, &product(number, by)?)
}

/// The sum of the products of a row with the numbers of a column.
fn sum_over(cells: &[Cell], entries: &Entries) -> Option<i128>
    ensures sum { IfSome result (λ r. r ≡ sum_of (λ x. number_at (entries_of entries.now) x.row *ℤ x.value) cells.now) }
    ensures below { OnSome result (AllByRecursion (λ x. x.row < length (entries_of entries.now)) cells.now) }
{
    let count = entries.count();
    let mut sum: i128 = 0;
    for cell in cells {
        if cell.row >= count {
            return None;
        }
        sum = added(sum, entries.at(cell.row), cell.value)?;
    }
    Some(sum)
}

/// The sum of the products of a row of words with the numbers of a column, without a test of the sum. It fits if the
/// sizes of the column together aren't more than `SMALL`.
fn sum_words(cells: &[Cell], words: &[i64]) -> Option<i128>
    ensures wrapped { IfSome result (λ r.
        r ≡ int_wrap w128 (sum_of (λ x. number_at words.now x.row *ℤ x.value) cells.now)) }
    ensures below { OnSome result (AllByRecursion (λ x. x.row < length words.now) cells.now) }
    ensures words { OnSome result (AllByRecursion (λ x. unsigned_abs (number_at words.now x.row) ≤ 2 ^ 63) cells.now) }
{
    let mut sum: i128 = 0;
    for cell in cells {
        if cell.row >= words.len() {
            return None;
        }
        sum = sum.wrapping_add(product_of(words[cell.row], cell.value));
    }
    Some(sum)
}

/// The number of a row in a plain column, over its denominator. Likely gives up if a sum of products doesn't fit.
pub fn number_of(first: &First, row: &TableRow, j: usize) -> Option<i128>
    requires { j < length first.now.columns.items }
    ensures { IfSome result (λ r. r ≡ number_in_row first.now (seen_of row.now) j) }
{
    let cells = first.columns[j].cells.as_slice();
    let entries = &row.row.entries;
    if !entries.wide && first.top <= SMALL {
        sum_words(cells, entries.words.as_slice())
    } else {
        sum_over(cells, entries)
    }
}

/// The same. Also gives up if it or the right side of the row is the least number of all, whose size doesn't fit.
fn sized_number(first: &First, row: &TableRow, j: usize) -> Option<i128>
    requires column_in { j < length first.now.columns.items }
    requires width { length (numbers_of row.now.row) ≡ suc (multipliers first.now.rows) }
    ensures number { IfSome result (λ r. r ≡ number_in_row first.now (seen_of row.now) j) }
    ensures fit { IfSome result (λ r. unsigned_abs r ≤ unsigned_abs widest) }
    ensures right_fits { OnSome result (unsigned_abs (number_at (numbers_of row.now.row)
        (multipliers first.now.rows)) ≤ unsigned_abs widest) }
{
    let number = number_of(first, row, j)?;
    let right = row.row.right;
    if number == i128::MIN || right == i128::MIN {
        return None;
    }
    Some(number)
}

/// Makes the numbers of a plain column, row by row. `marks` has a mark of each row that may have something in one of
/// the column's rows, and afterwards of those whose number isn't 0. Likely gives up if a sum of products doesn't
/// fit.
pub fn enter_column(
    first: &First,
    rows: &[TableRow],
    marks: &mut Marks,
    entered: &mut [i128],
    column: usize,
) -> Option<()>
    requires long { length entered.old ≡ suc (multipliers first.now.rows) }
    requires height { length rows.now ≡ suc first.now.rows }
    requires widths { HaveWidths first.now.rows (seen_at rows.now) }
    requires column_in { column < length first.now.columns.items }
    requires marks_long { length marks.old.words.items ≡ suc (suc first.now.rows / 64) }
    requires nothing { (i : ℕ) → i < first.now.rows → mark_in marks.old.words.items i ≡ 0 → AllByRecursion (λ x.
        number_at (seen_at rows.now i).numbers x.row ≡ pos 0) (cells_at first.now.columns.items column) }
    ensures numbers { OnSome result (AreEntered first.now.rows first.now.columns.items
        (seen_at rows.now) column entered.new) }
    ensures fit { OnSome result ((i : ℕ) → i ≤ first.now.rows →
        unsigned_abs (number_at entered.new i) ≤ unsigned_abs widest) }
    ensures right_fits { OnSome result ((i : ℕ) → i ≤ first.now.rows → number_at entered.new i ≢ pos 0 →
        unsigned_abs (number_at (seen_at rows.now i).numbers (multipliers first.now.rows)) ≤ unsigned_abs widest) }
    ensures told { OnSome result ((i : ℕ) → i ≤ first.now.rows → mark_in marks.new.words.items i ≡ 0 →
        number_at entered.new i ≡ pos 0) }
    ensures marks_long { length marks.new.words.items ≡ length marks.old.words.items }
{
    clear_row(entered);
    marks.put(first.rows);
    let mut i = marks.next(0, rows.len());
    while i < rows.len() {
        let number = sized_number(first, &rows[i], column)?;
        entered[i] = number;
        marks.note(i, number);
        i = marks.next(i + 1, rows.len());
    }
    Some(())
}

/// The greater of two sizes.
pub fn larger(a: u128, b: u128) -> u128
    ensures own { a ≤ result }
    ensures other { b ≤ result }
{
    if a < b { b } else { a }
}

/// A top of all numbers of a row, by that of its multipliers. Likely gives up if it doesn't fit.
pub fn whole_top(first: &First, row: &Row) -> Option<u128>
    requires { length (numbers_of row.now) ≡ suc (multipliers first.now.rows) }
    ensures { IfSome result (λ b. IsWholeTop first.now.rows (numbers_of row.now) first.now.top b) }
{
    let combined = size_product(row.top, first.top)?;
    Some(larger(combined, row.right.unsigned_abs()))
}

/// The number of a row in any column, the right side last. Likely gives up if a sum of products doesn't fit.
pub fn row_number(first: &First, row: &Row, j: usize) -> Option<i128>
    requires width { length (numbers_of row.now) ≡ suc (multipliers first.now.rows) }
    requires column_in { j < suc (length first.now.columns.items + first.now.rows) }
    ensures { IfSome result (λ r. r ≡ number_with first.now.rows first.now.columns.items (numbers_of row.now) j) }
{
    let plain = first.columns.len();
    if j < plain {
        return sum_over(first.columns[j].cells.as_slice(), &row.entries);
    }
    if j - plain < first.rows {
        Some(row.entries.at(j - plain))
    } else {
        Some(row.right)
    }
}

/// A top of all numbers of a row, its multipliers too, by each of them. Likely gives up if one doesn't fit.
pub fn top_in(first: &First, row: &Row) -> Option<u128>
    requires { length (numbers_of row.now) ≡ suc (multipliers first.now.rows) }
    ensures made { IfSome result (λ b. AreWithin (number_with first.now.rows first.now.columns.items
        (numbers_of row.now)) b) }
    ensures kept { IfSome result (λ b. AreWithin (number_at (numbers_of row.now)) b) }
{
    let mut top = larger(row.top, row.right.unsigned_abs());
    for j in 0..first.columns.len() {
        top = larger(top, row_number(first, row, j)?.unsigned_abs());
    }
    Some(top)
}
