//! The run of a problem.

ghost use Rattle.std.specs.Prelude.{◌≡◌, ℕ, ◌<◌, false, length, get_or, IfSome, IfOk, IfErr};
ghost use Rattle.stack_rational.specs.Laws.{widest};
ghost use Rattle.stack_table.specs.Problem.{flipped};
ghost use Rattle.stack_table.specs.Lent.{IsProblem, shape_of_problem, problem_of};
ghost use Rattle.stack_run.specs.ProblemRun.{run_at};
ghost use Rattle.stack_inverse.specs.Seen.{shape_of_revised, table_of_revised};
ghost use Rattle.stack_inverse.specs.FirstTable.{flips};
ghost use Rattle.stack_revised.specs.Ended.{shape_of_last, flips_of_last, value_of_last};
ghost use Rattle.stack_revised.specs.NoCell.{nothing};
ghost use Rattle.stack_revised.specs.Ended.{TellsWrittenRun, TellsNothing, stopped_as};
ghost use Rattle.stack_revised.specs.Reads.{IsPlain, read_at};
ghost use Rattle.stack_tableau.specs.EndKinds.{end_at};
ghost use Rattle.stack_tableau.specs.declared.end_kind.EndKind.TheVariants as end_kind;
ghost use Rattle.stack_revised.specs.declared.stops.RevisedStop.TheVariants as revised_stop;

use crate::last::Last;
use crate::read::Read;
use crate::stops::RevisedStop;
use crate::tableau::Revised;
use stack_inverse::{NoTable, RevisedTable, cell};
use stack_rational::Frac;
use stack_table::Problem;
use stack_tableau::{EndKind, RunStop, run_table};
use std::alloc::Global;

/// Whether each row is flipped.
fn flips(alloc: Global, right: &[i128]) -> Result<Vec<bool>, RevisedStop>
    ensures long { IfOk result (λ f. length f.items ≡ length right.now) }
    ensures each { IfOk result (λ f. (i : ℕ) → i < length right.now → get_or f.items i false ≡ flips right.now i) }
{
    let mut flipped = Vec::with_capacity(alloc, right.len())?;
    for i in 0..right.len() {
        flipped.push(right[i] < 0)?;
    }
    Ok(flipped)
}

/// The cell that is read in a row. Likely gives up if a number of a column doesn't fit.
fn cell_of(t: &RevisedTable, read: Read, i: usize) -> Option<Frac<i128>>
    requires row_in { i < (shape_of_revised t.now).rows }
    requires column_in { IsPlain (shape_of_revised t.now) read }
    ensures { IfSome result (λ x. x ≡ read_at t.now read i) }
{
    match read {
        Read::Column { column } => {
            let number = t.number(i, column)?;
            cell(number, t.under(i))
        }
        Read::Right => cell(t.right(i), t.under(i)),
        Read::Multipliers => cell(t.multiplier(i), t.under(t.rows())),
    }
}

/// What is read from a table, row by row. Gives up as `cell_of` does.
fn list_of(alloc: Global, t: &RevisedTable, read: Read) -> Result<Vec<Frac<i128>>, RevisedStop>
    requires { IsPlain (shape_of_revised t.now) read }
    ensures long { IfOk result (λ c. length c.items ≡ (shape_of_revised t.now).rows) }
    ensures each { IfOk result (λ c. (i : ℕ) → i < (shape_of_revised t.now).rows →
        get_or c.items i nothing ≡ read_at t.now read i) }
{
    let mut cells = Vec::with_capacity(alloc, t.rows())?;
    for i in 0..t.rows() {
        match cell_of(t, read, i) {
            Some(cell) => cells.push(cell)?,
            None => return Err(RevisedStop::Unsettled),
        }
    }
    Ok(cells)
}

/// The cells of a ray's column; none at another end.
fn read_column(
    alloc: Global,
    t: &RevisedTable,
    kind: EndKind,
) -> Result<Vec<Frac<i128>>, RevisedStop>
    ensures long { IfOk result (λ n. (c : ℕ) → kind ≡ end_kind.Ray c →
        length n.items ≡ (shape_of_revised t.now).rows) }
    ensures each { IfOk result (λ n. (c : ℕ) → kind ≡ end_kind.Ray c → (i : ℕ) → i < (shape_of_revised t.now).rows →
        get_or n.items i nothing ≡ (table_of_revised t.now).cell i c) }
{
    match kind {
        EndKind::Ray { column } => {
            // It is always a plain column of the table.
            if t.plain() <= column {
                return Err(RevisedStop::Unsettled);
            }
            list_of(alloc, t, Read::Column { column })
        }
        EndKind::Infeasible => Ok(Vec::new(alloc)),
        EndKind::Feasible => Ok(Vec::new(alloc)),
        EndKind::Optimal => Ok(Vec::new(alloc)),
    }
}

/// The end of a run with its last table. Gives up as `read_column` does, and then says nothing about the written run.
fn last_of(
    alloc: Global,
    table: RevisedTable,
    kind: EndKind,
    flipped: Vec<bool>,
) -> Result<Last, RevisedStop>
    requires { length flipped.items ≡ (shape_of_revised table).rows }
    ensures shape { IfOk result (λ l. shape_of_last l ≡ shape_of_revised table) }
    ensures flips { IfOk result (λ l. l.flipped.items ≡ flipped.items) }
    ensures value { IfOk result (λ l. value_of_last l ≡ end_at kind (table_of_revised table)) }
    ensures unsettled { IfErr result (λ e. TellsNothing e) }
{
    let right = list_of(alloc, &table, Read::Right);
    let multipliers = list_of(alloc, &table, Read::Multipliers);
    let column = read_column(alloc, &table, kind);
    match (right, multipliers, column) {
        (Ok(right), Ok(multipliers), Ok(column)) => Ok(Last {
            kind,
            table,
            flipped,
            right,
            multipliers,
            column,
        }),
        (Err(RevisedStop::Memory), _, _) => Err(RevisedStop::Memory),
        (_, Err(RevisedStop::Memory), _) => Err(RevisedStop::Memory),
        (_, _, Err(RevisedStop::Memory)) => Err(RevisedStop::Memory),
        _ => Err(RevisedStop::Unsettled),
    }
}

/// Why a run over rows has no end, as a run of a problem says it.
fn stopped(stop: RunStop) -> RevisedStop
    ensures { result ≡ stopped_as stop }
{
    match stop {
        RunStop::TooWide(place) => RevisedStop::TooWide(place),
        RunStop::Spent => RevisedStop::Spent,
        RunStop::Unsettled => RevisedStop::Unsettled,
    }
}

/// The run of a problem within a budget of pivots: its end is that of the written run at 128 bits, with its last table.
///
/// `TooWide` names the first operation of the written run that is too wide for 128 bits, and comes only if there is
/// one. `Spent` comes only if the written run is over its budget. The run may also be given up, mostly because a number
/// that it makes doesn't fit: no clause says when. That says nothing about the written run, and neither does `Memory`.
pub fn run_revised(alloc: Global, p: &Problem, budget: u32) -> Result<Last, RevisedStop>
    requires { IsProblem p.now }
    ensures shape { IfOk result (λ l. shape_of_last l ≡ shape_of_problem p.now) }
    ensures flips { IfOk result (λ l. flips_of_last l ≡ flipped (problem_of p.now)) }
    ensures value { TellsWrittenRun result (run_at widest (problem_of p.now) budget) }
{
    let flipped = match flips(alloc, p.right.as_slice()) {
        Ok(flipped) => flipped,
        Err(_) => return Err(RevisedStop::Memory),
    };
    let table = match RevisedTable::of_problem(alloc, p) {
        Ok(table) => table,
        Err(NoTable::Memory) => return Err(RevisedStop::Memory),
        Err(NoTable::Unsettled) => return Err(RevisedStop::Unsettled),
    };
    let mut revised = Revised { table };
    let kind = match run_table(&mut revised, budget) {
        Ok(kind) => kind,
        Err(stop) => return Err(stopped(stop)),
    };
    last_of(alloc, revised.table, kind, flipped)
}
