//! The numbers of a last table, as fractions of 128 bits.

ghost use Rattle.std.specs.Prelude.{◌≡◌, ◌≤◌, ◌<◌, IfOk, IfErr, IfSome, OnOk, None, ◌++◌, ◌∷◌, [], true};
ghost use Rattle.stack_algebra.proofs.OrderedFractions.{ordered_fractions};
ghost use Rattle.stack_whole.specs.Limits.{most_contact_columns};
ghost use Rattle.stack_run.specs.EndNumbers.{basic_row, column_value, rate};
ghost use Rattle.stack_extract.specs.WrittenLists.{
  forces_number,
  forces_list,
  ray_number,
  ray_list,
  bound_number,
  bound_list,
  collapse_list,
};
ghost use Rattle.stack_extract.specs.Places.{TellsPlace, shift_place};

use crate::types::{EndStep, ExtractError, Numbers, too_wide};
use stack_rational::{Exact, Frac};
use stack_tableau::LastTable;
use std::alloc::{AllocError, Global};

/// The row in which a column is basic.
fn basic_row<L: LastTable>(t: &L, column: usize) -> Option<usize>
    ensures { result ≡ basic_row ordered_fractions (L.shape t.now) (L.table t.now) column }
{
    for row in 0..t.rows() {
        if t.basic(row) == column {
            return Some(row);
        }
    }
    None
}

/// The value of a column: the right side of the row in which it is basic, else 0.
fn value<L: LastTable>(t: &L, column: usize) -> Frac<i128>
    ensures { result ≡ column_value ordered_fractions (L.shape t.now) (L.table t.now) column }
{
    match basic_row(t, column) {
        Some(row) => t.right(row),
        None => Frac::zero(),
    }
}

/// The rate of a column as `entering` rises by 1.
fn rate<L: LastTable>(t: &L, entering: usize, column: usize) -> Frac<i128>
    requires { L.reads t.now entering ≡ true }
    ensures { result ≡ rate ordered_fractions (L.shape t.now) (L.table t.now) entering column }
{
    if column == entering {
        return Frac::one();
    }
    match basic_row(t, column) {
        Some(row) => t.cell_of(row, entering).negated(),
        None => Frac::zero(),
    }
}

/// A value, and 0 for a factor that has no column.
fn forces_number<L: LastTable>(t: &L, column: usize) -> Frac<i128>
    ensures { result ≡ forces_number (L.shape t.now) (L.table t.now) column }
{
    if column < t.plain() {
        value(t, column)
    } else {
        Frac::zero()
    }
}

/// A rate, and 0 for a factor that has no column.
fn ray_number<L: LastTable>(t: &L, entering: usize, column: usize) -> Frac<i128>
    requires { L.reads t.now entering ≡ true }
    ensures { result ≡ ray_number (L.shape t.now) (L.table t.now) entering column }
{
    if column < t.plain() {
        rate(t, entering, column)
    } else {
        Frac::zero()
    }
}

/// The objective cell of a row's artificial column.
fn bound_number<L: LastTable>(t: &L, row: usize) -> Frac<i128>
    requires { row < (L.shape t.now).rows }
    ensures { result ≡ bound_number (L.shape t.now) (L.table t.now) row }
{
    t.multiplier(row)
}

/// The values of the contact columns, and then of the factor.
pub(crate) fn forces_numbers<L: LastTable>(
    alloc: Global,
    t: &L,
) -> Result<Vec<Frac<i128>>, AllocError>
    requires { (L.shape t.now).contacts ≤ most_contact_columns }
    ensures { IfOk result (λ r. r.items ≡ forces_list (L.shape t.now) (L.table t.now)) }
{
    let mut numbers = Vec::new(alloc);
    for column in 0..t.contacts() + 1 {
        numbers.push(forces_number(t, column))?;
    }
    Ok(numbers)
}

/// The rates of the contact columns, and then of the factor.
pub(crate) fn ray_numbers<L: LastTable>(
    alloc: Global,
    t: &L,
    entering: usize,
) -> Result<Vec<Frac<i128>>, AllocError>
    requires few { (L.shape t.now).contacts ≤ most_contact_columns }
    requires column { L.reads t.now entering ≡ true }
    ensures { IfOk result (λ r. r.items ≡ ray_list (L.shape t.now) (L.table t.now) entering) }
{
    let mut numbers = Vec::new(alloc);
    for column in 0..t.contacts() + 1 {
        numbers.push(ray_number(t, entering, column))?;
    }
    Ok(numbers)
}

/// The objective cells of the artificial columns.
pub(crate) fn bound_numbers<L: LastTable>(
    alloc: Global,
    t: &L,
) -> Result<Vec<Frac<i128>>, AllocError>
    ensures { IfOk result (λ r. r.items ≡ bound_list (L.shape t.now) (L.table t.now)) }
{
    let mut numbers = Vec::new(alloc);
    for row in 0..t.rows() {
        numbers.push(bound_number(t, row))?;
    }
    Ok(numbers)
}

/// A list with one more number.
fn longer(mut numbers: Vec<Frac<i128>>, number: Frac<i128>) -> Result<Vec<Frac<i128>>, AllocError>
    ensures { IfOk result (λ r. r.items ≡ numbers.items ++ number ∷ []) }
{
    numbers.push(number)?;
    Ok(numbers)
}

/// The objective cells of the artificial columns, each minus 1. Refused at the first difference that is too wide.
pub(crate) fn collapse_numbers<L: LastTable>(
    alloc: Global,
    t: &L,
) -> Result<Vec<Frac<i128>>, ExtractError>
    ensures ok { IfOk result (λ r. r.items ≡ collapse_list (L.shape t.now) (L.table t.now)) }
    ensures fits { OnOk result (shift_place (L.shape t.now) (L.table t.now) ≡ None) }
    ensures wide { IfErr result (λ e. TellsPlace e (shift_place (L.shape t.now) (L.table t.now))) }
{
    let mut numbers = Vec::new(alloc);
    for row in 0..t.rows() {
        match bound_number(t, row).difference(Frac::one()) {
            Ok(number) => numbers = longer(numbers, number)?,
            Err(_) => return Err(too_wide(Numbers::Motion, EndStep::Shift, row)),
        }
    }
    Ok(numbers)
}
