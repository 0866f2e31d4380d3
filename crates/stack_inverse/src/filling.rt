//! The numbers with which a run begins, row by row.

ghost use Rattle.std.specs.Prelude.{◌≡◌, ℕ, suc, ◌+◌, ◌<◌, ◌^◌, length, get_or, pos, eqb, cond, false};
ghost use Rattle.std.specs.Prelude.{OnSome, IfSome, IfOk, OnOk};
ghost use Rattle.stack_rows.specs.RowForm.{number_at};
ghost use Rattle.stack_inverse.specs.Columns.{multipliers, HaveWidths, IsPut};
ghost use Rattle.stack_inverse.specs.RowsSeen.{seen_at};
ghost use Rattle.stack_inverse.specs.FirstTable.{load_at, IsFirstRow, less_loads, AreFilled};

use crate::building::turned;
use crate::first::COSTS;
use crate::objective::set_only;
use crate::pivoting::put_row;
use crate::row::TableRow;
use crate::stops::NoTable;
use num_traits::CheckedSub;
use stack_rows::Row;
use std::alloc::Global;

/// Puts the first row i, over 1. Gives its right side.
fn put_first_row(
    rows: &mut [TableRow],
    numbers: &mut [i128],
    right: &[i128],
    i: usize,
) -> Option<i128>
    requires row_in { i < length right.now }
    requires width { length numbers.old ≡ suc (multipliers (length right.now)) }
    requires height { length rows.old ≡ suc (length right.now) }
    requires widths { HaveWidths (length right.now) (seen_at rows.old) }
    ensures load { IfSome result (λ s. s ≡ load_at right.now i) }
    ensures put { OnSome result (IsPut (seen_at rows.old) i numbers.new (pos 1) false (seen_at rows.new)) }
    ensures row { OnSome result ((j : ℕ) → number_at numbers.new j
        ≡ cond (eqb j (multipliers (length right.now))) (load_at right.now i) (cond (eqb j i) (pos 1) (pos 0))) }
{
    let load = turned(right, i, right[i])?;
    set_only(numbers, i, 1);
    numbers[right.len() + COSTS] = load;
    put_row(rows, i, numbers, 1);
    Some(load)
}

/// Puts the first rows, each over 1. Gives minus the sum of their right sides.
fn put_first_rows(rows: &mut [TableRow], numbers: &mut [i128], right: &[i128]) -> Option<i128>
    requires width { length numbers.old ≡ suc (multipliers (length right.now)) }
    requires height { length rows.old ≡ suc (length right.now) }
    requires widths { HaveWidths (length right.now) (seen_at rows.old) }
    requires unfit { (i : ℕ) → (seen_at rows.old i).fits ≡ false }
    ensures widths { OnSome result (HaveWidths (length right.now) (seen_at rows.new)) }
    ensures unfit { OnSome result ((i : ℕ) → (seen_at rows.new i).fits ≡ false) }
    ensures rest { IfSome result (λ s. s ≡ less_loads right.now (length right.now)) }
    ensures rows { OnSome result ((i : ℕ) → i < length right.now →
        IsFirstRow (length right.now) (seen_at rows.new) i (load_at right.now i)) }
{
    let mut rest: i128 = 0;
    for i in 0..right.len() {
        rest = CheckedSub::checked_sub(&rest, &put_first_row(rows, numbers, right, i)?)?;
    }
    Some(rest)
}

/// Puts the first rows and the objective row of phase 1. Likely gives up if the sum of the right sides doesn't fit.
pub fn fill(rows: &mut [TableRow], numbers: &mut [i128], right: &[i128]) -> Result<(), NoTable>
    requires width { length numbers.old ≡ suc (multipliers (length right.now)) }
    requires height { length rows.old ≡ suc (length right.now) }
    requires widths { HaveWidths (length right.now) (seen_at rows.old) }
    requires unfit { (i : ℕ) → (seen_at rows.old i).fits ≡ false }
    ensures widths { OnOk result (HaveWidths (length right.now) (seen_at rows.new)) }
    ensures unfit { OnOk result ((i : ℕ) → (seen_at rows.new i).fits ≡ false) }
    ensures filled { OnOk result (AreFilled (length right.now) right.now (seen_at rows.new)) }
{
    let rest = match put_first_rows(rows, numbers, right) {
        Some(rest) => rest,
        None => return Err(NoTable::Unsettled),
    };
    set_only(numbers, right.len(), 1);
    numbers[right.len() + COSTS] = rest;
    put_row(rows, right.len(), numbers, 1);
    Ok(())
}

/// Zeros.
pub fn zeros(alloc: Global, count: usize) -> Result<Vec<i128>, NoTable>
    ensures { IfOk result (λ r. length r.items ≡ count) }
{
    let list = Vec::from_elem(alloc, 0, count)?;
    Ok(list)
}

/// Rows of `width` zeros, none known to fit.
pub fn rows_of(alloc: Global, count: usize, width: u16) -> Result<Vec<TableRow>, NoTable>
    requires { 0 < width }
    ensures height { IfOk result (λ r. length r.items ≡ count) }
    ensures widths { IfOk result (λ r. (i : ℕ) → i < count → length (seen_at r.items i).numbers ≡ width) }
    ensures unfit { IfOk result (λ r. (i : ℕ) → i < count → (seen_at r.items i).fits ≡ false) }
{
    let mut rows = Vec::with_capacity(alloc, count)?;
    for _ in 0..count {
        let row = Row::zeros(alloc, width)?;
        rows.push(TableRow { row, fits: false })?;
    }
    Ok(rows)
}

/// The first basic columns: the artificial ones, in the order of their rows.
pub fn first_basics(alloc: Global, plain: usize, rows: usize) -> Result<Vec<usize>, NoTable>
    requires { plain + rows < 2 ^ 63 }
    ensures long { IfOk result (λ b. length b.items ≡ rows) }
    ensures each { IfOk result (λ b. (i : ℕ) → i < rows → get_or b.items i 0 ≡ plain + i) }
{
    let mut basic = Vec::with_capacity(alloc, rows)?;
    for i in 0..rows {
        basic.push(plain + i)?;
    }
    Ok(basic)
}
