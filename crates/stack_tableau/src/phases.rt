//! The three phases, and the run.

ghost use Rattle.std.specs.Prelude.{◌≡◌, ◌≢◌, ◌<◌, pos, OnOk};
ghost use Rattle.stack_algebra.proofs.OrderedFractions.{ordered_fractions};
ghost use Rattle.stack_rational.specs.TooWide.{is_too_wide};
ghost use Rattle.stack_table.specs.Table.{plain, pivoted_at, clear_objective, set_factor_objective};
ghost use Rattle.stack_table.specs.Spots.{pivot_spot};
ghost use Rattle.stack_bland.specs.Found.{TellsFound};
ghost use Rattle.stack_run.specs.WrittenRun.{turns, driven_column, drive_row, drives, written_run};
ghost use Rattle.stack_tableau.specs.Answers.{IsSettled};
ghost use Rattle.stack_tableau.specs.Tells.{TellsPivot, TellsPivots, TellsPhase, TellsRun};
ghost use Rattle.stack_tableau.specs.Written.{IsWrittenTable};

use crate::EndKind;
use crate::stops::RunStop;
use crate::tableau::Tableau;
use crate::turn::{due_pivot, run_phase};
use stack_bland::Found;
use stack_run::{PhaseEnd, Pivots, run_laws};

/// Phase 1 of a written table, within a budget: the artificial columns are driven to 0 as far as the contact columns
/// can.
fn first_phase<T: Tableau>(t: &mut T, budget: u32) -> Result<Pivots, RunStop>
    requires { IsWrittenTable (T.shape t.old) (T.table t.old) }
    ensures shape { OnOk result (T.shape t.new ≡ T.shape t.old) }
    ensures flips { OnOk result (T.flips t.new ≡ T.flips t.old) }
    ensures answer { TellsPivots T.settles (T.table t.new) result
        (turns ordered_fractions (T.shape t.old) (is_too_wide T.MAX) 1 (T.shape t.old).contacts budget 0
        (T.table t.old)) }
{
    run_laws();
    let contacts = t.contacts();
    match run_phase(t, 1, contacts, Pivots::within(budget)) {
        Ok(PhaseEnd::Complete(pivots)) => Ok(pivots),
        // In phase 1 some row leaves wherever a column enters.
        Ok(PhaseEnd::Unlimited(_)) => unreachable!(),
        Err(stop) => Err(stop),
    }
}

/// The least column before the artificial ones in which the row isn't 0.
fn driven_column<T: Tableau>(t: &T, row: usize) -> Found<usize>
    requires { row < (T.shape t.now).rows }
    ensures value { TellsFound result (driven_column ordered_fractions (T.shape t.now) (T.table t.now) row) }
    ensures settled { IsSettled T.settles result }
{
    for j in 0..t.plain() {
        match t.is_nothing(row, j) {
            Some(true) => {}
            Some(false) => return Found::This(j),
            None => return Found::GaveUp,
        }
    }
    Found::Nothing
}

/// A pivot of phase 2 that is due, at a column that isn't at hand yet.
fn driven_pivot<T: Tableau>(
    t: &mut T,
    pivots: Pivots,
    row: usize,
    column: usize,
) -> Result<Pivots, RunStop>
    requires row_in { row < (T.shape t.old).rows }
    requires column_in { column < plain (T.shape t.old) }
    requires cell { ((T.table t.old).cell row column).num ≢ pos 0 }
    ensures shape { OnOk result (T.shape t.new ≡ T.shape t.old) }
    ensures flips { OnOk result (T.flips t.new ≡ T.flips t.old) }
    ensures table { OnOk result (T.table t.new
        ≡ pivoted_at ordered_fractions (T.shape t.old) (T.table t.old) row column) }
    ensures counted { TellsPivot T.settles result 2 pivots
        (pivot_spot ordered_fractions (is_too_wide T.MAX) (T.shape t.old) (T.table t.old) row column) }
{
    match t.enter(column) {
        Some(()) => due_pivot(t, 2, pivots, row, column),
        None => Err(RunStop::Unsettled),
    }
}

/// A pivot that takes the row's artificial column out, where there is a column to bring in.
fn drive_row<T: Tableau>(t: &mut T, pivots: Pivots, row: usize) -> Result<Pivots, RunStop>
    requires { row < (T.shape t.old).rows }
    ensures shape { OnOk result (T.shape t.new ≡ T.shape t.old) }
    ensures flips { OnOk result (T.flips t.new ≡ T.flips t.old) }
    ensures answer { TellsPivots T.settles (T.table t.new) result
        (drive_row ordered_fractions (T.shape t.old) (is_too_wide T.MAX) pivots.left pivots.done (T.table t.old) row) }
{
    if t.basic(row) < t.plain() {
        return Ok(pivots);
    }
    match driven_column(t, row) {
        Found::GaveUp => Err(RunStop::Unsettled),
        Found::Nothing => Ok(pivots),
        Found::This(column) => driven_pivot(t, pivots, row, column),
    }
}

/// Phase 2: the objective row is set to 0, and in each row an artificial basic column is taken out, where that can be.
fn second_phase<T: Tableau>(t: &mut T, pivots: Pivots) -> Result<Pivots, RunStop>
    ensures shape { OnOk result (T.shape t.new ≡ T.shape t.old) }
    ensures flips { OnOk result (T.flips t.new ≡ T.flips t.old) }
    ensures answer { TellsPivots T.settles (T.table t.new) result
        (drives ordered_fractions (T.shape t.old) (is_too_wide T.MAX) (T.shape t.old).rows pivots.left
        pivots.done (clear_objective ordered_fractions (T.shape t.old) (T.table t.old))) }
{
    match t.clear_objective() {
        Some(()) => {}
        None => return Err(RunStop::Unsettled),
    }
    let mut pivots = pivots;
    for row in 0..t.rows() {
        match drive_row(t, pivots, row) {
            Ok(next) => pivots = next,
            Err(stop) => return Err(stop),
        }
    }
    Ok(pivots)
}

/// Phase 3, with the factor's objective: the factor rises as far as it can.
fn third_phase<T: Tableau>(t: &mut T, pivots: Pivots) -> Result<PhaseEnd, RunStop>
    requires { (T.shape t.old).factors ≡ 1 }
    ensures shape { OnOk result (T.shape t.new ≡ T.shape t.old) }
    ensures flips { OnOk result (T.flips t.new ≡ T.flips t.old) }
    ensures answer { TellsPhase T.settles (T.table t.new) result
        (turns ordered_fractions (T.shape t.old) (is_too_wide T.MAX) 3 (plain (T.shape t.old))
        pivots.left pivots.done (set_factor_objective ordered_fractions (T.shape t.old) (T.table t.old))) }
{
    match t.set_factor_objective() {
        Some(()) => {}
        None => return Err(RunStop::Unsettled),
    }
    let among = t.plain();
    run_phase(t, 3, among, pivots)
}

/// The run of a written table within a budget of pivots, in place: exactly the written run at the width of its numbers.
pub fn run_table<T: Tableau>(t: &mut T, budget: u32) -> Result<EndKind, RunStop>
    requires { IsWrittenTable (T.shape t.old) (T.table t.old) }
    ensures shape { OnOk result (T.shape t.new ≡ T.shape t.old) }
    ensures flips { OnOk result (T.flips t.new ≡ T.flips t.old) }
    ensures value { TellsRun T.settles (T.table t.new) result
        (written_run ordered_fractions (T.shape t.old) (is_too_wide T.MAX) budget (T.table t.old)) }
{
    let pivots = match first_phase(t, budget) {
        Ok(pivots) => pivots,
        Err(stop) => return Err(stop),
    };
    if t.falls_short() {
        return Ok(EndKind::Infeasible);
    }
    if !t.has_factor() {
        return Ok(EndKind::Feasible);
    }
    let pivots = match second_phase(t, pivots) {
        Ok(pivots) => pivots,
        Err(stop) => return Err(stop),
    };
    match third_phase(t, pivots) {
        Ok(PhaseEnd::Complete(_)) => Ok(EndKind::Optimal),
        Ok(PhaseEnd::Unlimited(column)) => Ok(EndKind::Ray { column }),
        Err(stop) => Err(stop),
    }
}
