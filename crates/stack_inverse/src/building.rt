//! The first rows of a problem: their columns, with the costs below them, and their sizes.

ghost use Rattle.std.specs.Prelude.{◌≡◌, ℕ, ◌<◌, ◌≤◌, map, length, get_or, [], true, false, IfOk, IfSome};
ghost use Rattle.std.specs.List.{AllByRecursion};
ghost use Rattle.stack_table.specs.Table.{plain};
ghost use Rattle.stack_table.specs.Problem.{turned};
ghost use Rattle.stack_table.specs.Lent.{IsProblem, shape_of_problem};
ghost use Rattle.stack_inverse.specs.Columns.{cells_at};
ghost use Rattle.stack_inverse.specs.FirstTable.{flips, AreTurned, HasCosts, AreFirstColumns, sizes_in, less_cells};

use crate::columns::{Cell, FirstColumn};
use crate::first::{COSTS, First};
use crate::making::larger;
use crate::stops::NoTable;
use num_traits::{CheckedAdd, CheckedNeg, CheckedSub};
use stack_rows::word;
use stack_table::{Entry, Problem};
use std::alloc::Global;

/// A number of a row, flipped as the row is. Gives up if it doesn't fit.
pub fn turned(right: &[i128], row: usize, number: i128) -> Option<i128>
    requires { row < length right.now }
    ensures { IfSome result (λ r. r ≡ turned (flips right.now row) number) }
{
    if right[row] < 0 {
        CheckedNeg::checked_neg(&number)
    } else {
        Some(number)
    }
}

/// The cell of an entry.
fn cell_of_entry(right: &[i128], entry: Entry) -> Option<Cell>
    requires { entry.row < length right.now }
    ensures row { IfSome result (λ c. c.row ≡ entry.row) }
    ensures value { IfSome result (λ c. c.value ≡ turned (flips right.now entry.row) entry.value) }
{
    let value = word(turned(right, entry.row, entry.value)?)?;
    Some(Cell {
        row: entry.row,
        value,
    })
}

/// The cells of a column.
pub fn cells_of(alloc: Global, entries: &[Entry], right: &[i128]) -> Result<Vec<Cell>, NoTable>
    requires { AllByRecursion (λ x. x.row < length right.now) entries.now }
    ensures { IfOk result (λ cells. AreTurned right.now entries.now cells.items) }
{
    let mut cells = Vec::with_capacity(alloc, entries.len() + COSTS)?;
    for entry in entries {
        let cell = match cell_of_entry(right, *entry) {
            Some(cell) => cell,
            None => return Err(NoTable::Unsettled),
        };
        cells.push(cell)?;
    }
    Ok(cells)
}

/// Minus the sum of the values of cells.
fn first_cost(cells: &[Cell]) -> Option<i64>
    ensures { IfSome result (λ r. r ≡ less_cells cells.now) }
{
    let mut rest: i128 = 0;
    for cell in cells {
        rest = CheckedSub::checked_sub(&rest, &(cell.value as i128))?;
    }
    word(rest)
}

/// The cells of a column, and below them its cost in phase 1: minus the sum of its values.
fn with_cost(alloc: Global, entries: &[Entry], right: &[i128]) -> Result<Vec<Cell>, NoTable>
    requires { AllByRecursion (λ x. x.row < length right.now) entries.now }
    ensures { IfOk result (λ cells. HasCosts (length right.now) right.now false entries.now cells.items) }
{
    let mut cells = cells_of(alloc, entries, right)?;
    let value = match first_cost(cells.as_slice()) {
        Some(value) => value,
        None => return Err(NoTable::Unsettled),
    };
    cells.push(Cell {
        row: right.len(),
        value,
    })?;
    Ok(cells)
}

/// The same, and below that its cost in phase 3: -1.
fn factor_cells(alloc: Global, entries: &[Entry], right: &[i128]) -> Result<Vec<Cell>, NoTable>
    requires { AllByRecursion (λ x. x.row < length right.now) entries.now }
    ensures { IfOk result (λ cells. HasCosts (length right.now) right.now true entries.now cells.items) }
{
    let mut cells = with_cost(alloc, entries, right)?;
    cells.push(Cell {
        row: right.len() + 1,
        value: -1,
    })?;
    Ok(cells)
}

/// The contact columns, with room for one more.
fn contact_columns(alloc: Global, p: &Problem) -> Result<Vec<FirstColumn>, NoTable>
    requires { IsProblem p.now }
    ensures long { IfOk result (λ c. length c.items ≡ length p.now.contact.items) }
    ensures costs { IfOk result (λ c. (j : ℕ) → j < length p.now.contact.items → HasCosts (length p.now.right.items)
        p.now.right.items false (get_or (map (λ c. c.entries.items) p.now.contact.items) j [])
        (cells_at c.items j)) }
{
    let mut columns = Vec::with_capacity(alloc, p.contact.len() + 1)?;
    for j in 0..p.contact.len() {
        let cells = with_cost(alloc, p.contact[j].entries.as_slice(), p.right.as_slice())?;
        columns.push(FirstColumn { cells })?;
    }
    Ok(columns)
}

/// The plain columns: the contact columns, and then the factor's.
pub fn plain_columns(alloc: Global, p: &Problem) -> Result<Vec<FirstColumn>, NoTable>
    requires { IsProblem p.now }
    ensures long { IfOk result (λ c. length c.items ≡ plain (shape_of_problem p.now)) }
    ensures columns { IfOk result (λ c. AreFirstColumns p.now c.items) }
{
    let mut columns = contact_columns(alloc, p)?;
    match &p.factor {
        Some(factor) => {
            let cells = factor_cells(alloc, factor.entries.as_slice(), p.right.as_slice())?;
            columns.push(FirstColumn { cells })?;
            Ok(columns)
        }
        None => Ok(columns),
    }
}

/// The sum of the sizes of cells.
fn sizes_of(cells: &[Cell]) -> Option<u128>
    ensures { IfSome result (λ r. r ≡ sizes_in cells.now) }
{
    let mut sum: u128 = 0;
    for cell in cells {
        sum = CheckedAdd::checked_add(&sum, &u128::from(cell.value.unsigned_abs()))?;
    }
    Some(sum)
}

/// A number that isn't 0, and at least as great as the sum of the sizes of each column.
pub fn column_top(columns: &[FirstColumn]) -> Option<u128>
    ensures some { IfSome result (λ r. 0 < r) }
    ensures top { IfSome result (λ r. (j : ℕ) → j < length columns.now → sizes_in (cells_at columns.now j) ≤ r) }
{
    let mut top = 1;
    for j in 0..columns.len() {
        top = larger(top, sizes_of(columns[j].cells.as_slice())?);
    }
    Some(top)
}

/// The first rows of a problem.
pub fn first_of(alloc: Global, p: &Problem) -> Result<First, NoTable>
    requires { IsProblem p.now }
    ensures rows { IfOk result (λ f. f.rows ≡ p.now.rows) }
    ensures long { IfOk result (λ f. length f.columns.items ≡ plain (shape_of_problem p.now)) }
    ensures columns { IfOk result (λ f. AreFirstColumns p.now f.columns.items) }
{
    let columns = plain_columns(alloc, p)?;
    let top = match column_top(columns.as_slice()) {
        Some(top) => top,
        None => return Err(NoTable::Unsettled),
    };
    Ok(First {
        columns,
        top,
        rows: p.rows,
    })
}
