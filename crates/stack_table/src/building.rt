//! The written table of a problem, cell by cell.

ghost use Rattle.std.specs.Prelude.{◌≡◌, ◌++◌, ◌∷◌, [], ℕ, ◌*◌, ◌<◌, ◌≤◌, length, map, pos, true, false, None, Some};
ghost use Rattle.std.specs.Prelude.{IfOk, IfErr, OnOk, OnErr};
ghost use Rattle.stack_algebra.proofs.Fractions.{of};
ghost use Rattle.stack_algebra.proofs.OrderedFractions.{ordered_fractions};
ghost use Rattle.stack_algebra.specs.Search.{first};
ghost use Rattle.stack_rational.specs.declared.exact.Op.TheVariants as op;
ghost use Rattle.stack_rational.specs.TooWide.{fraction_fits, is_too_wide, op_value};
ghost use Rattle.stack_table.specs.Table.{plain, width};
ghost use Rattle.stack_table.specs.Block.{cell_of, item_value, IsBlock, Grows};
ghost use Rattle.stack_table.specs.Problem.{turned};
ghost use Rattle.stack_table.specs.Lent.{entry_in, IsProblem, shape_of_problem, problem_of, TellsFirst};
ghost use Rattle.stack_whole.specs.Limits.{IsBelowBound};
ghost use Rattle.stack_table.specs.WrittenTable.{written_number, number_place, first_row, row_place};
ghost use Rattle.stack_table.specs.WrittenTable.{less_all, partial_place};
ghost use Rattle.stack_table.specs.WrittenTable.{is_artificial, objective_over, objective_place, objective_places};
ghost use Rattle.stack_table.specs.declared.problem.BuildError.TheVariants.{Wide as AtPlace};

use crate::problem::{BuildError, Entry, Problem};
use stack_rational::{Exact, OpWide};
use std::alloc::AllocError;

/// The value in a row, 0 where no entry stands there.
fn entry_in(entries: &[Entry], row: usize) -> i128
    ensures { result ≡ entry_in entries.now row }
{
    for entry in entries {
        if entry.row == row {
            return entry.value;
        }
    }
    0
}

/// The first artificial column.
pub fn artificial(p: &Problem) -> usize
    requires { IsProblem p.now }
    ensures { result ≡ plain (shape_of_problem p.now) }
{
    if p.factor.is_some() {
        p.contact.len() + 1
    } else {
        p.contact.len()
    }
}

/// Whether a column is artificial.
fn is_artificial(p: &Problem, artificial: usize, column: usize) -> bool
    requires problem { IsProblem p.now }
    requires artificial { artificial ≡ plain (shape_of_problem p.now) }
    ensures { result ≡ is_artificial (shape_of_problem p.now) column }
{
    artificial <= column && column < artificial + p.rows
}

/// What the problem gives for a row and a column that isn't artificial.
fn entry(p: &Problem, i: usize, j: usize) -> i128
    requires { j < plain (shape_of_problem p.now) }
    ensures { result ≡ (problem_of p.now).entry i j }
{
    if j < p.contact.len() {
        entry_in(p.contact[j].entries.as_slice(), i)
    } else {
        match &p.factor {
            Some(factor) => entry_in(factor.entries.as_slice(), i),
            None => 0,
        }
    }
}

/// A number of a row that is flipped, or isn't.
fn turned(flipped: bool, number: i128) -> i128
    requires { IsBelowBound number }
    ensures { result ≡ turned flipped number }
{
    if flipped { -number } else { number }
}

/// The number in a row and a column.
fn number(p: &Problem, artificial: usize, i: usize, j: usize) -> i128
    requires problem { IsProblem p.now }
    requires artificial { artificial ≡ plain (shape_of_problem p.now) }
    requires i_in { i < p.now.rows }
    requires j_in { j < width (shape_of_problem p.now) }
    ensures { result ≡ written_number (problem_of p.now) i j }
{
    let flipped = p.right[i] < 0;
    if j < artificial {
        return turned(flipped, entry(p, i, j));
    }
    if j < artificial + p.rows {
        return if j == artificial + i { 1 } else { 0 };
    }
    turned(flipped, p.right[i])
}

/// The cell in a row and a column.
fn first_cell<S: Exact>(p: &Problem, artificial: usize, i: usize, j: usize) -> Result<S, OpWide>
    requires problem { IsProblem p.now }
    requires artificial { artificial ≡ plain (shape_of_problem p.now) }
    requires i_in { i < p.now.rows }
    requires j_in { j < width (shape_of_problem p.now) }
    ensures ok { IfOk result (λ r. S.exact r ≡ first_row ordered_fractions (problem_of p.now) i j) }
    ensures small { IfOk result (λ r. fraction_fits S.MAX (S.exact r) ≡ true) }
    ensures fits { IfOk result (λ r.
        number_place ordered_fractions (is_too_wide S.MAX) (problem_of p.now) i j ≡ None) }
    ensures wide { IfErr result (λ e.
        number_place ordered_fractions (is_too_wide S.MAX) (problem_of p.now) i j ≡ Some (AtPlace i j)) }
{
    S::from_whole(number(p, artificial, i, j))
}

/// Puts a cell and its mark.
fn push_cell<S: Exact>(cells: &mut Vec<S>, marks: &mut Vec<bool>, cell: S) -> Result<(), AllocError>
    requires block { IsBlock S.MAX S.exact cells.old.items marks.old.items }
    requires fits { fraction_fits S.MAX (S.exact cell) ≡ true }
    ensures block { OnOk result (IsBlock S.MAX S.exact cells.new.items marks.new.items) }
    ensures ok { OnOk result (cells.new.items ≡ cells.old.items ++ cell ∷ []) }
{
    cells.push(cell)?;
    marks.push(cell.is_zero())?;
    Ok(())
}

/// Puts the cells of a row.
pub fn push_row<S: Exact>(
    cells: &mut Vec<S>,
    marks: &mut Vec<bool>,
    p: &Problem,
    artificial: usize,
    i: usize,
) -> Result<(), BuildError>
    requires problem { IsProblem p.now }
    requires artificial { artificial ≡ plain (shape_of_problem p.now) }
    requires i_in { i < p.now.rows }
    requires block { IsBlock S.MAX S.exact cells.old.items marks.old.items }
    ensures block { OnOk result (IsBlock S.MAX S.exact cells.new.items marks.new.items) }
    ensures grown { OnOk result (Grows S.exact cells.old.items cells.new.items (width (shape_of_problem p.now))
        (first_row ordered_fractions (problem_of p.now) i)) }
    ensures fits { OnOk result (row_place ordered_fractions (is_too_wide S.MAX) (problem_of p.now) i ≡ None) }
    ensures wide { IfErr result (λ e.
        TellsFirst e (row_place ordered_fractions (is_too_wide S.MAX) (problem_of p.now) i)) }
{
    for j in 0..artificial + p.rows + 1 {
        let cell = match first_cell(p, artificial, i, j) {
            Ok(cell) => cell,
            Err(_) => return Err(BuildError::Wide { row: i, column: j }),
        };
        match push_cell(cells, marks, cell) {
            Ok(()) => {}
            Err(_) => return Err(BuildError::Memory),
        }
    }
    Ok(())
}

/// Minus the sum of the cells of a column, one after the other.
fn less_column<S: Exact>(cells: &[S], rows: usize, width: usize, column: usize) -> Result<S, OpWide>
    requires room { rows * width ≤ length cells.now }
    requires column_in { column < width }
    ensures ok { IfOk result (λ r. S.exact r
        ≡ less_all ordered_fractions rows (λ i. cell_of S.exact width cells.now i column)) }
    ensures fits { IfOk result (λ r. fraction_fits S.MAX (S.exact r) ≡ true) }
    ensures none { OnOk result (first rows (partial_place ordered_fractions (is_too_wide S.MAX)
        (AtPlace rows column) (λ i. cell_of S.exact width cells.now i column)) ≡ None) }
    ensures wide { OnErr result (first rows (partial_place ordered_fractions (is_too_wide S.MAX)
        (AtPlace rows column) (λ i. cell_of S.exact width cells.now i column)) ≡ Some (AtPlace rows column)) }
{
    let mut sum = S::zero();
    for i in 0..rows {
        sum = sum.difference(cells[i * width + column])?;
    }
    Ok(sum)
}

/// The cell of the objective row in a column, over the rows that are there.
fn objective_cell<S: Exact>(
    cells: &[S],
    p: &Problem,
    artificial: usize,
    column: usize,
) -> Result<S, OpWide>
    requires problem { IsProblem p.now }
    requires artificial { artificial ≡ plain (shape_of_problem p.now) }
    requires room { p.now.rows * width (shape_of_problem p.now) ≤ length cells.now }
    requires column_in { column < width (shape_of_problem p.now) }
    ensures ok { IfOk result (λ r. S.exact r ≡ objective_over ordered_fractions (shape_of_problem p.now)
        (cell_of S.exact (width (shape_of_problem p.now)) cells.now) column) }
    ensures fits { IfOk result (λ r. fraction_fits S.MAX (S.exact r) ≡ true) }
    ensures none { OnOk result (objective_place ordered_fractions (is_too_wide S.MAX) (shape_of_problem p.now)
        (cell_of S.exact (width (shape_of_problem p.now)) cells.now) column ≡ None) }
    ensures wide { OnErr result (objective_place ordered_fractions (is_too_wide S.MAX) (shape_of_problem p.now)
        (cell_of S.exact (width (shape_of_problem p.now)) cells.now) column
        ≡ Some (AtPlace p.now.rows column)) }
{
    if is_artificial(p, artificial, column) {
        return Ok(S::zero());
    }
    let cell = less_column(cells, p.rows, artificial + p.rows + 1, column)?;
    Ok(cell)
}

/// Puts the cells of the objective row.
pub fn push_objective<S: Exact>(
    cells: &mut Vec<S>,
    marks: &mut Vec<bool>,
    p: &Problem,
    artificial: usize,
) -> Result<(), BuildError>
    requires problem { IsProblem p.now }
    requires artificial { artificial ≡ plain (shape_of_problem p.now) }
    requires long { length cells.old.items ≡ p.now.rows * width (shape_of_problem p.now) }
    requires block { IsBlock S.MAX S.exact cells.old.items marks.old.items }
    ensures block { OnOk result (IsBlock S.MAX S.exact cells.new.items marks.new.items) }
    ensures grown { OnOk result (Grows S.exact cells.old.items cells.new.items (width (shape_of_problem p.now))
        (objective_over ordered_fractions (shape_of_problem p.now)
        (cell_of S.exact (width (shape_of_problem p.now)) cells.old.items))) }
    ensures fits { OnOk result (objective_places ordered_fractions (is_too_wide S.MAX) (shape_of_problem p.now)
        (cell_of S.exact (width (shape_of_problem p.now)) cells.old.items) ≡ None) }
    ensures wide { IfErr result (λ e. TellsFirst e (objective_places ordered_fractions (is_too_wide S.MAX)
        (shape_of_problem p.now) (cell_of S.exact (width (shape_of_problem p.now)) cells.old.items))) }
{
    for j in 0..artificial + p.rows + 1 {
        let cell = match objective_cell(cells.as_slice(), p, artificial, j) {
            Ok(cell) => cell,
            Err(_) => return Err(BuildError::Wide {
                row: p.rows,
                column: j,
            }),
        };
        match push_cell(cells, marks, cell) {
            Ok(()) => {}
            Err(_) => return Err(BuildError::Memory),
        }
    }
    Ok(())
}
