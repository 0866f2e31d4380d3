//! A row that is made anew from the cells that a step makes of it, over a common denominator.

ghost use Rattle.std.specs.Prelude.{◌≡◌, ◌*ℤ◌, ◌-ℤ◌, length, IfSome, OnSome};
ghost use Rattle.stack_rows.specs.RowForm.{IsTaken, IsRemade};
ghost use Rattle.stack_rows.specs.RowSeen.{numbers_of};

use crate::divider::Divider;
use crate::pivot::Pivot;
use crate::row::Row;
use crate::sums::CheckSums;
use num_traits::CheckedMul;
use stack_rational::{Exact, Frac, divisor_of};

/// What a row step makes of a row, column by column.
pub trait Cells {
    ghost use Rattle.std.specs.Prelude.{ℤ, pos};

    // k, t and the denominator of the step
    ghost times: { Self → ℤ };

    ghost less: { Self → ℤ };

    ghost over: { Self → ℤ };

    /// The cell of a column, by the numbers of the row and of the pivot row there. Gives up where it is too wide, and
    /// likely nowhere else.
    fn cell(&self, own: i128, other: i128) -> Option<Frac<i128>>
        ensures { IfSome result (λ x. x.num *ℤ over self.now
            ≡ (own *ℤ times self.now -ℤ less self.now *ℤ other) *ℤ pos x.den) };
}

/// A common multiple of two positive numbers. Gives up where it doesn't fit.
fn multiple(a: i128, b: i128) -> Option<i128> {
    let common = divisor_of(a.unsigned_abs(), b.unsigned_abs());
    let part = Divider::of(common.cast_signed()).exact(a)?;
    CheckedMul::checked_mul(&part, &b)
}

/// A common denominator of the cells, likely the least. Gives up where it doesn't fit.
fn common_under<C: Cells>(row: &Row, pivot: &Pivot, cells: &C) -> Option<i128>
    requires { length (numbers_of pivot.now.row) ≡ length (numbers_of row.now) }
{
    let mut common = 1;
    for j in 0..row.width() {
        let own = row.number(j);
        let other = pivot.row.number(j);
        if own == 0 && other == 0 {
            continue;
        }
        common = multiple(common, cells.cell(own, other)?.parts().1)?;
    }
    Some(common)
}

/// The number of a cell over this denominator. Gives up where it isn't whole or doesn't fit.
fn remade<C: Cells>(cells: &C, own: i128, pivot: i128, common: i128) -> Option<i128>
    ensures { IfSome result (λ r. r *ℤ C.over cells.now
        ≡ (own *ℤ C.times cells.now -ℤ C.less cells.now *ℤ pivot) *ℤ common) }
{
    if own == 0 && pivot == 0 {
        return Some(0);
    }
    let cell = cells.cell(own, pivot)?;
    let (number, under) = cell.parts();
    let part = Divider::of(under).exact(common)?;
    let product = CheckedMul::checked_mul(&part, &number)?;
    Some(product)
}

/// Makes the numbers of a row of its cells over this denominator, where all are whole and fit.
pub fn remake<C: Cells>(numbers: &mut [i128], pivot: &[i128], cells: &C, common: i128) -> Option<()>
    requires { length pivot.now ≡ length numbers.old }
    ensures { OnSome result (IsRemade numbers.old (C.over cells.now) pivot.now (C.times cells.now)
        (C.less cells.now) numbers.new common) }
{
    for j in 0..numbers.len() {
        numbers[j] = remade(cells, numbers[j], pivot[j], common)?;
    }
    Some(())
}

/// Makes a row anew from the cells that a step makes of it, over a common denominator. Gives up where none fits with
/// all numbers over it.
pub fn remake_row<C: Cells>(row: &mut Row, pivot: &Pivot, cells: &C) -> Option<()>
    requires { length (numbers_of pivot.now.row) ≡ length (numbers_of row.old) }
    ensures width { length (numbers_of row.new) ≡ length (numbers_of row.old) }
    ensures ok { OnSome result (IsTaken (numbers_of row.old) (C.over cells.now) (numbers_of pivot.now.row)
        (C.times cells.now) (C.less cells.now) (numbers_of row.new) row.new.under) }
{
    let common = common_under(row, pivot, cells)?;
    if common <= 0 {
        return None;
    }
    let right = remade(cells, row.right, pivot.row.right, common)?;
    let made = row.entries.remake(pivot.numbers.as_slice(), cells, common);
    row.top = made.top;
    made.by?;
    row.right = right;
    row.under = common;
    row.sums = CheckSums::of_entries(&row.entries);
    row.age = 0;
    row.settle();
    Some(())
}
