//! The condition of a table, as a test.

ghost use Rattle.std.specs.Prelude.{◌≡◌};
ghost use Rattle.stack_table.specs.Lent.{factor_entries};
ghost use Rattle.stack_table.specs.Sound.{is_small, is_column, are_columns, are_small};

use crate::problem::{Column, Entry};

/// What no number of a problem reaches in size: 2^100, the bound of loads.
const NUMBER_BOUND: u128 = 1 << 100;

/// Whether a number is below 2^100 in size.
fn is_small(number: i128) -> bool
    ensures { result ≡ is_small number }
{
    number.unsigned_abs() < NUMBER_BOUND
}

/// Whether entries stand in rising rows below `rows`, and are small.
fn is_column(entries: &[Entry], rows: usize) -> bool
    ensures { result ≡ is_column rows 0 entries.now }
{
    let mut from = 0;
    for entry in entries {
        if entry.row < from {
            return false;
        }
        if rows <= entry.row {
            return false;
        }
        if !is_small(entry.value) {
            return false;
        }
        from = entry.row + 1;
    }
    true
}

/// Whether each column has small entries in rising rows below `rows`.
pub fn are_columns(columns: &[Column], rows: usize) -> bool
    ensures { result ≡ are_columns rows columns.now }
{
    for column in columns {
        if !is_column(column.entries.as_slice(), rows) {
            return false;
        }
    }
    true
}

/// Whether each number is small.
pub fn are_small(numbers: &[i128]) -> bool
    ensures { result ≡ are_small numbers.now }
{
    for number in numbers {
        if !is_small(*number) {
            return false;
        }
    }
    true
}

/// Whether the factor column, if there is one, has small entries in rising rows below `rows`.
pub fn is_factor(factor: &Option<Column>, rows: usize) -> bool
    ensures { result ≡ is_column rows 0 (factor_entries factor.now) }
{
    match factor {
        Some(column) => is_column(column.entries.as_slice(), rows),
        None => true,
    }
}
