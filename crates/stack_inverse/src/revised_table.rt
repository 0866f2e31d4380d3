//! The table of a run by its multipliers.

ghost use Rattle.std.specs.Prelude.{◌≡◌, ℕ, suc, ◌+◌, ◌<◌, ◌≤◌, length, get_or};
ghost use Rattle.stack_rational.specs.Laws.{widest};
ghost use Rattle.stack_whole.specs.Limits.{most_rows};
ghost use Rattle.stack_table.specs.Table.{plain, columns};
ghost use Rattle.stack_table.specs.Block.{shape_of};
ghost use Rattle.stack_inverse.specs.RowBlock.{AreFitting};
ghost use Rattle.stack_inverse.specs.Columns.{multipliers, HaveWidths, AreFactorCosts};
ghost use Rattle.stack_rows.specs.RowSeen.{numbers_of};
ghost use Rattle.stack_bland.specs.Found.{TellsFound, IfFound};
ghost use Rattle.stack_inverse.specs.Marks.{least_negative};
ghost use Rattle.stack_inverse.specs.Marking.{AreMarks};
ghost use Rattle.stack_inverse.specs.RowsSeen.{seen_at, cells_of_rows, number_in_row};
ghost use Rattle.stack_inverse.specs.FoundProps.{TellsFound-prop};
ghost use Rattle.std.proofs.Props.{props};

use crate::building::first_of;
use crate::filling::{fill, first_basics, rows_of, zeros};
use crate::first::{COSTS, First};
use crate::making::{enter_column, number_of};
use crate::marking::Marking;
use crate::objective::{clear_row, factor_row};
use crate::pivoting::{pivot_rows, put_row};
use crate::row::{PivotRow, TableRow};
use crate::stops::NoTable;
use stack_bland::Found;
use stack_rows::Pivot;
use stack_table::{Problem, TurnRefusal, row_with};
use std::alloc::Global;

/// How many numbers a row has, the right side among them: places in a row are of 16 bits.
fn width_of(rows: usize) -> u16
    requires { rows ≤ most_rows }
    ensures { result ≡ suc (multipliers rows) }
{
    (rows + COSTS + 1) as u16
}

/// The exact table of a run. Row `rows` is the objective row.
#[derive(Drop)]
pub struct RevisedTable {
    first: First,
    /// The objective row last.
    rows: Vec<TableRow>,
    /// The basic column of each row.
    basic: Vec<usize>,
    /// Room for the pivot row.
    pivot: PivotRow,
    /// Room for the numbers of the entering column, row by row.
    entered: Vec<i128>,
    marking: Marking,
    /// The least plain column in which the objective row is negative.
    least: Found<usize>,
    contacts: usize,
    has_factor: bool,
    ghost plain_count: { length first.columns.items ≡ plain (shape_of first.rows contacts has_factor) },
    ghost costs: { AreFactorCosts first.rows first.columns.items contacts },
    ghost height: { length rows.items ≡ suc first.rows },
    ghost widths: { HaveWidths first.rows (seen_at rows.items) },
    ghost fitting: { AreFitting widest (cells_of_rows first rows.items) (seen_at rows.items) },
    ghost room: { length (numbers_of pivot.divided.row) ≡ suc (multipliers first.rows) },
    ghost one_number: { length entered.items ≡ suc (multipliers first.rows) },
    ghost marks: { AreMarks first (seen_at rows.items) marking } by { Prim.hlevel props },
    ghost found: { TellsFound least (least_negative (number_in_row first (seen_at rows.items first.rows))
        (length first.columns.items)) } by { TellsFound-prop _ _ },
    ghost basics: { length basic.items ≡ first.rows },
    ghost basics_in: { (i : ℕ) → i < first.rows →
        get_or basic.items i 0 < columns (shape_of first.rows contacts has_factor) },
}

impl RevisedTable {
    ghost use Rattle.std.specs.Prelude.{◌≢◌, ◌<ℤ◌, pos, cond, OnSome, None, IfSome, IfOk, OnOk, IfErr};
    ghost use Rattle.stack_inverse.specs.CellSteps.{TellsSpot};
    ghost use Rattle.stack_rows.specs.RowForm.{number_at};
    ghost use Rattle.stack_algebra.proofs.OrderedFractions.{ordered_fractions};
    ghost use Rattle.stack_rational.specs.TooWide.{is_too_wide};
    ghost use Rattle.stack_table.specs.Table.{pivoted_at, clear_objective, set_factor_objective};
    ghost use Rattle.stack_table.specs.Spots.{pivot_spot};
    ghost use Rattle.stack_table.specs.Lent.{IsProblem, shape_of_problem, problem_of};
    ghost use Rattle.stack_table.specs.WrittenTable.{written_table};
    ghost use Rattle.stack_inverse.specs.Seen.{shape_of_revised, table_of_revised, number_in, under_in, IsEntered};
    ghost use Rattle.stack_inverse.specs.Seen.{IsObjectivePut};

    /// The written table of a problem. All memory of a run is taken here. Likely given up if an entry, the sum of a
    /// column or that of the right sides doesn't fit.
    pub fn of_problem(alloc: Global, p: &Problem) -> Result<RevisedTable, NoTable>
        requires { IsProblem p.now }
        ensures shape { IfOk result (λ t. shape_of_revised t ≡ shape_of_problem p.now) }
        ensures ok { IfOk result (λ t. table_of_revised t ≡ written_table ordered_fractions (problem_of p.now)) }
    {
        let first = first_of(alloc, p)?;
        let width = width_of(p.rows);
        let mut rows = rows_of(alloc, p.rows + 1, width)?;
        let pivot = PivotRow {
            divided: Pivot::zeros(alloc, width)?,
            whole_top: 0,
        };
        let mut entered = zeros(alloc, p.rows + COSTS + 1)?;
        let basic = first_basics(alloc, first.columns.len(), p.rows)?;
        fill(
            rows.as_mut_slice(),
            entered.as_mut_slice(),
            p.right.as_slice(),
        )?;
        let mut marking = Marking::of_first(alloc, &first)?;
        let least = marking.least_negative(&first, rows.as_slice());
        Ok(RevisedTable {
            first,
            rows,
            basic,
            pivot,
            entered,
            marking,
            least,
            contacts: p.contact.len(),
            has_factor: p.factor.is_some(),
        })
    }

    pub fn rows(&self) -> usize
        ensures { result ≡ (shape_of_revised self.now).rows }
    {
        self.first.rows
    }

    /// The columns before the artificial ones.
    pub fn plain(&self) -> usize
        ensures { result ≡ plain (shape_of_revised self.now) }
    {
        self.first.columns.len()
    }

    pub fn contacts(&self) -> usize
        ensures { result ≡ (shape_of_revised self.now).contacts }
    {
        self.contacts
    }

    pub fn has_factor(&self) -> bool
        ensures { (shape_of_revised self.now).factors ≡ cond result 1 0 }
    {
        self.has_factor
    }

    /// The basic column of a row.
    pub fn basic(&self, i: usize) -> usize
        requires { i < (shape_of_revised self.now).rows }
        ensures value { result ≡ (table_of_revised self.now).basic i }
        ensures below { result < columns (shape_of_revised self.now) }
    {
        self.basic[i]
    }

    /// The number in a row and a plain column, over the denominator of the row. Likely gives up if a sum of products
    /// doesn't fit.
    pub fn number(&self, i: usize, j: usize) -> Option<i128>
        requires i_in { i ≤ (shape_of_revised self.now).rows }
        requires j_in { j < plain (shape_of_revised self.now) }
        ensures { IfSome result (λ r. r ≡ number_in self.now i j) }
    {
        number_of(&self.first, &self.rows[i], j)
    }

    /// Makes the numbers of a plain column, row by row, and keeps them. Gives up as `number` does.
    pub fn enter(&mut self, column: usize) -> Option<()>
        requires { column < plain (shape_of_revised self.old) }
        ensures shape { shape_of_revised self.new ≡ shape_of_revised self.old }
        ensures table { table_of_revised self.new ≡ table_of_revised self.old }
        ensures entered { OnSome result (IsEntered self.new column) }
    {
        self.marking.touch(&self.first, column);
        enter_column(
            &self.first,
            self.rows.as_slice(),
            &mut self.marking.to_visit.touched,
            self.entered.as_mut_slice(),
            column,
        )
    }

    /// The number of a row that was kept last.
    pub fn entered(&self, i: usize) -> i128
        requires { i ≤ (shape_of_revised self.now).rows }
        ensures { result ≡ number_at self.now.entered.items i }
    {
        self.entered[i]
    }

    /// The least column below `among` with a negative number in the objective row. Likely gives up if a sum of
    /// products doesn't fit.
    pub fn entering(&self, among: usize) -> Found<usize>
        requires { among ≤ plain (shape_of_revised self.now) }
        ensures value { TellsFound result
            (least_negative (number_in self.now (shape_of_revised self.now).rows) among) }
        ensures below { IfFound result (λ j. j < among) }
    {
        match self.least {
            Found::This(column) if column < among => Found::This(column),
            Found::This(_) => Found::Nothing,
            Found::Nothing => Found::Nothing,
            Found::GaveUp => Found::GaveUp,
        }
    }

    /// The right side of a row, over its denominator.
    pub fn right(&self, i: usize) -> i128
        requires { i ≤ (shape_of_revised self.now).rows }
        ensures { result ≡ number_in self.now i (columns (shape_of_revised self.now)) }
    {
        self.rows[i].row.right
    }

    /// The number of the objective row in a row's artificial column, over the denominator of the objective row.
    pub fn multiplier(&self, i: usize) -> i128
        requires { i < (shape_of_revised self.now).rows }
        ensures { result ≡ number_in self.now (shape_of_revised self.now).rows
            (plain (shape_of_revised self.now) + i) }
    {
        self.rows[self.first.rows].row.entries.at(i)
    }

    /// The denominator of a row.
    pub fn under(&self, i: usize) -> i128
        requires { i ≤ (shape_of_revised self.now).rows }
        ensures value { result ≡ under_in self.now i }
        ensures positive { pos 0 <ℤ result }
    {
        self.rows[i].row.under
    }

    /// A pivot at a row and a column whose numbers are kept, and whose cell in the row isn't 0. `TooWide` names the
    /// first operation that is too wide. It may also be given up, likely if the result of a row step doesn't fit and
    /// no small common denominator is left. Either leaves the table spent.
    pub fn pivot(&mut self, row: usize, column: usize) -> Result<(), TurnRefusal>
        requires row_in { row < (shape_of_revised self.old).rows }
        requires column_in { column < plain (shape_of_revised self.old) }
        requires cell { ((table_of_revised self.old).cell row column).num ≢ pos 0 }
        requires entered { IsEntered self.old column }
        ensures shape { OnOk result (shape_of_revised self.new ≡ shape_of_revised self.old) }
        ensures ok { OnOk result (table_of_revised self.new
            ≡ pivoted_at ordered_fractions (shape_of_revised self.old) (table_of_revised self.old) row column) }
        ensures none { OnOk result (pivot_spot ordered_fractions (is_too_wide widest) (shape_of_revised self.old)
            (table_of_revised self.old) row column ≡ None) }
        ensures refused { IfErr result (λ e. TellsSpot e (pivot_spot ordered_fractions (is_too_wide widest)
            (shape_of_revised self.old) (table_of_revised self.old) row column)) }
    {
        self.basic[row] = column;
        let done = pivot_rows(
            &self.first,
            self.rows.as_mut_slice(),
            &mut self.pivot,
            self.entered.as_slice(),
            &self.marking.to_visit,
            row,
            column,
        );
        self.marking.mark_on(done.is_ok(), &self.pivot.divided);
        self.least = self
            .marking
            .least_negative(&self.first, self.rows.as_slice());
        done
    }

    /// Puts the kept numbers over a denominator in the place of the objective row.
    fn put_objective(&mut self, under: i128)
        requires { pos 0 <ℤ under }
        ensures shape { shape_of_revised self.new ≡ shape_of_revised self.old }
        ensures table { IsObjectivePut self.old self.old.entered.items under self.new }
    {
        put_row(
            self.rows.as_mut_slice(),
            self.first.rows,
            self.entered.as_slice(),
            under,
        );
        self.marking.reopen();
        self.least = self
            .marking
            .least_negative(&self.first, self.rows.as_slice());
    }

    /// Sets the objective row to 0, its right side too.
    pub fn clear_objective(&mut self)
        ensures shape { shape_of_revised self.new ≡ shape_of_revised self.old }
        ensures ok { table_of_revised self.new
            ≡ clear_objective ordered_fractions (shape_of_revised self.old) (table_of_revised self.old) }
    {
        clear_row(self.entered.as_mut_slice());
        self.put_objective(1);
    }

    /// Sets the objective row to that of the factor: the row in which it is basic, without its own cell; if it isn't
    /// basic, -1 in its column alone. Gives up only if it is basic: if a product or a partial sum of the row's number
    /// in the factor's column, or the row's multiplier of the costs of phase 3 plus its denominator, doesn't fit 128
    /// bits, or if the row's cell in that column isn't 1, which it is in a run.
    pub fn set_factor_objective(&mut self) -> Option<()>
        requires { (shape_of_revised self.old).factors ≡ 1 }
        ensures shape { OnSome result (shape_of_revised self.new ≡ shape_of_revised self.old) }
        ensures ok { OnSome result (table_of_revised self.new
            ≡ set_factor_objective ordered_fractions (shape_of_revised self.old) (table_of_revised self.old)) }
    {
        let row = row_with(self.basic.as_slice(), self.contacts);
        let under = factor_row(
            &self.first,
            self.rows.as_slice(),
            self.entered.as_mut_slice(),
            self.contacts,
            row,
        )?;
        self.put_objective(under);
        Some(())
    }
}
