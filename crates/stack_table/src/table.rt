//! The table of a run.

ghost use Rattle.std.specs.Prelude.{◌≡◌, ℕ, suc, ◌*◌, ◌<◌, length, get_or};
ghost use Rattle.stack_table.specs.Table.{width, columns, plain};
ghost use Rattle.stack_table.specs.Block.{shape_of, IsBlock};

use crate::building::{artificial, push_objective, push_row};
use crate::objective::{clear_last, row_with, set_last};
use crate::pivoting::pivot_block;
use crate::problem::{BuildError, Problem};
use crate::types::PivotWide;
use stack_rational::Exact;
use std::alloc::Global;

/// The exact table of a run, in one flat block. Row `rows` is the objective row, column `columns` the right
/// side.
///
/// All memory is taken by `build`; no other call takes any.
#[derive(Drop)]
pub struct Table<S: Exact> {
    /// Row by row, the objective row last; each row by rising column, the right side last.
    cells: Vec<S>,
    /// One for each cell, on exactly if it is 0.
    marks: Vec<bool>,
    /// The basic column of each row.
    basic: Vec<usize>,
    /// Whether each row was flipped.
    flipped: Vec<bool>,
    /// How many cells a row has.
    row_length: usize,
    rows: usize,
    contacts: usize,
    has_factor: bool,
    ghost wide: { row_length ≡ width (shape_of rows contacts has_factor) },
    ghost whole: { length cells.items ≡ suc rows * row_length },
    ghost block: { IsBlock S.MAX S.exact cells.items marks.items },
    ghost basics: { length basic.items ≡ rows },
    ghost basics_in: { (i : ℕ) → i < rows →
        get_or basic.items i 0 < columns (shape_of rows contacts has_factor) },
    ghost flips: { length flipped.items ≡ rows },
}

impl<S: Exact> Table<S> {
    ghost use Rattle.std.specs.Prelude.{◌≢◌, ◌+◌, ◌≤◌, pos, cond, OnOk, MatchResult, Some, None};
    ghost use Rattle.stack_algebra.proofs.OrderedFractions.{ordered_fractions};
    ghost use Rattle.stack_rational.specs.TooWide.{is_too_wide};
    ghost use Rattle.stack_rational.specs.Order.{is_zero};
    ghost use Rattle.stack_table.specs.Table.{pivoted_at, clear_objective, set_factor_objective};
    ghost use Rattle.stack_table.specs.Block.{mark_at, item_value};
    ghost use Rattle.stack_table.specs.Spots.{pivot_spot};
    ghost use Rattle.stack_table.specs.Lent.{IsProblem};
    ghost use Rattle.stack_table.specs.Built.{Builds};
    ghost use Rattle.stack_table.specs.Seen.{shape_of_table, table_of, flips_of};

    /// The written table of a problem.
    ///
    /// Refused at the first number, or partial difference of the objective row, that is too wide, in the written
    /// order; never at 128 bits. All memory of a run is taken here.
    #[tactic(auto, using(crate::proofs::Refusals::out_of_memory))]
    pub fn build(alloc: Global, p: &Problem) -> Result<Table<S>, BuildError>
        requires { IsProblem p.now }
        ensures { Builds result p.now }
    {
        let artificial = artificial(p);
        let width = artificial + p.rows + 1;
        let size = (p.rows + 1) * width;
        let mut cells: Vec<S> = Vec::with_capacity(alloc, size)?;
        let mut marks: Vec<bool> = Vec::with_capacity(alloc, size)?;
        let mut basic: Vec<usize> = Vec::with_capacity(alloc, p.rows)?;
        let mut flipped: Vec<bool> = Vec::with_capacity(alloc, p.rows)?;
        for i in 0..p.rows {
            push_row(&mut cells, &mut marks, p, artificial, i)?;
            basic.push(artificial + i)?;
            flipped.push(p.right[i] < 0)?;
        }
        push_objective(&mut cells, &mut marks, p, artificial)?;
        Ok(Table {
            cells,
            marks,
            basic,
            flipped,
            row_length: width,
            rows: p.rows,
            contacts: p.contact.len(),
            has_factor: p.factor.is_some(),
        })
    }

    /// The number of rows, without the objective row.
    pub fn rows(&self) -> usize
        ensures { result ≡ (shape_of_table self.now).rows }
    {
        self.rows
    }

    /// All columns but the right side.
    pub fn columns(&self) -> usize
        ensures { result ≡ columns (shape_of_table self.now) }
    {
        self.row_length - 1
    }

    /// The columns before the artificial ones.
    pub fn plain(&self) -> usize
        ensures { result ≡ plain (shape_of_table self.now) }
    {
        self.columns() - self.rows
    }

    /// The number of contact columns.
    pub fn contacts(&self) -> usize
        ensures { result ≡ (shape_of_table self.now).contacts }
    {
        self.contacts
    }

    /// Whether there is a factor column, behind the contact columns.
    pub fn has_factor(&self) -> bool
        ensures { (shape_of_table self.now).factors ≡ cond result 1 0 }
    {
        self.has_factor
    }

    /// The cell in a row and a column; row `rows` is the objective row, column `columns` the right side.
    pub fn cell(&self, i: usize, j: usize) -> S
        requires i_in { i ≤ (shape_of_table self.now).rows }
        requires j_in { j ≤ columns (shape_of_table self.now) }
        ensures { S.exact result ≡ (table_of self.now).cell i j }
    {
        self.cells[i * self.row_length + j]
    }

    /// The basic column of a row.
    pub fn basic(&self, i: usize) -> usize
        requires { i < (shape_of_table self.now).rows }
        ensures value { result ≡ (table_of self.now).basic i }
        ensures below { result < columns (shape_of_table self.now) }
    {
        self.basic[i]
    }

    /// Whether a row was flipped.
    pub fn flipped(&self, i: usize) -> bool
        requires { i < (shape_of_table self.now).rows }
        ensures { result ≡ flips_of self.now i }
    {
        self.flipped[i]
    }

    /// All cells, row by row, the objective row last; each row by rising column, the right side last.
    pub fn block(&self) -> &[S]
        ensures whole { length result.now
            ≡ suc (shape_of_table self.now).rows * width (shape_of_table self.now) }
        ensures cells { (i j : ℕ) → j < width (shape_of_table self.now) →
            item_value S.exact result.now (i * width (shape_of_table self.now) + j)
            ≡ (table_of self.now).cell i j }
    {
        self.cells.as_slice()
    }

    /// A mark for each cell, in the same order: on exactly if the cell is 0.
    pub fn marks(&self) -> &[bool]
        ensures whole { length result.now
            ≡ suc (shape_of_table self.now).rows * width (shape_of_table self.now) }
        ensures marked { (i j : ℕ) → j < width (shape_of_table self.now) →
            mark_at result.now (i * width (shape_of_table self.now) + j)
            ≡ is_zero ((table_of self.now).cell i j) }
    {
        self.marks.as_slice()
    }

    /// A pivot at a row and a column whose cell isn't 0.
    ///
    /// Refused at the first operation that is too wide, in the written order; the table is spent then.
    pub fn pivot(&mut self, row: usize, column: usize) -> Result<(), PivotWide>
        requires row_in { row < (shape_of_table self.old).rows }
        requires column_in { column < columns (shape_of_table self.old) }
        requires cell { ((table_of self.old).cell row column).num ≢ pos 0 }
        ensures shape { OnOk result (shape_of_table self.new ≡ shape_of_table self.old) }
        ensures flips { OnOk result (flips_of self.new ≡ flips_of self.old) }
        ensures ok { OnOk result (table_of self.new
            ≡ pivoted_at ordered_fractions (shape_of_table self.old) (table_of self.old) row column) }
        ensures wide { MatchResult result
            (λ _. pivot_spot ordered_fractions (is_too_wide S.MAX) (shape_of_table self.old) (table_of self.old)
            row column ≡ None)
            (λ e. pivot_spot ordered_fractions (is_too_wide S.MAX) (shape_of_table self.old) (table_of self.old)
            row column ≡ Some e) }
    {
        pivot_block(
            self.cells.as_mut_slice(),
            self.marks.as_mut_slice(),
            self.row_length,
            self.rows,
            row,
            column,
        )?;
        self.basic[row] = column;
        Ok(())
    }

    /// Sets the objective row to 0, its right side too.
    pub fn clear_objective(&mut self)
        ensures shape { shape_of_table self.new ≡ shape_of_table self.old }
        ensures flips { flips_of self.new ≡ flips_of self.old }
        ensures ok { table_of self.new
            ≡ clear_objective ordered_fractions (shape_of_table self.old) (table_of self.old) }
    {
        clear_last(
            self.cells.as_mut_slice(),
            self.marks.as_mut_slice(),
            self.rows,
            self.row_length,
        );
    }

    /// Sets the objective row to that of the factor: the row in which it is basic without its own cell, and
    /// where it isn't basic -1 in its column alone.
    pub fn set_factor_objective(&mut self)
        requires { (shape_of_table self.old).factors ≡ 1 }
        ensures shape { shape_of_table self.new ≡ shape_of_table self.old }
        ensures flips { flips_of self.new ≡ flips_of self.old }
        ensures ok { table_of self.new
            ≡ set_factor_objective ordered_fractions (shape_of_table self.old) (table_of self.old) }
    {
        let row = row_with(self.basic.as_slice(), self.contacts);
        set_last(
            self.cells.as_mut_slice(),
            self.marks.as_mut_slice(),
            self.rows,
            self.row_length,
            self.contacts,
            row,
        );
    }
}
