//! The simplex run over exact numbers: three phases from a written table to one of four ends.
//!
//! Phase 1 drives the artificial columns to 0, phase 2 takes them out of the basic columns, and phase 3 raises
//! the factor. A turn chooses its entering column and its leaving row by Bland's rule (1977), and then pivots.
//!
//! ```text
//! match run(table, budget)? {
//!     Ended::Infeasible(last) => .., // no forces balance the dead loads
//!     Ended::Feasible(last) => .., // some do, and no live loads are asked about
//!     Ended::Optimal(last) => .., // at the greatest factor
//!     Ended::Ray { table, column } => .., // at factors without end
//! }
//! ```
#![tactic(auto)]

ghost use Rattle.std.specs.Prelude.{◌≡◌, ◌≢◌, ℕ, ◌≤◌, Some, Err, IfOk};
ghost use Rattle.stack_algebra.proofs.OrderedFractions.{ordered_fractions};
ghost use Rattle.stack_rational.specs.TooWide.{is_too_wide};
ghost use Rattle.stack_table.specs.Table.{columns};
ghost use Rattle.stack_table.specs.Problem.{Problem};
ghost use Rattle.stack_table.specs.Seen.{shape_of_table, table_of, flips_of};
ghost use Rattle.stack_run.specs.WrittenRun.{written_run};
ghost use Rattle.stack_run.specs.FourEnds.{EndGives};
ghost use Rattle.stack_run.specs.Enough.{enough_of};
ghost use Rattle.stack_simplex.specs.declared.refusal.RunError.TheVariants.{Spent};
ghost use Rattle.stack_tableau.specs.Written.{IsTableOf, IsWrittenTable};
ghost use Rattle.stack_tableau.specs.LastTables.{last_of};
ghost use Rattle.stack_simplex.specs.Ends.{run_end};

mod budget;
mod refusal;

pub use budget::enough;
pub use refusal::RunError;
use stack_rational::Exact;
pub use stack_run::{RunPlace, RunPlace as Place};
use stack_run::{budget_law, run_laws};
use stack_table::Table;
pub use stack_tableau::Ended;
use stack_tableau::{EndKind, RunStop, run_table};

/// The run by its three phases.
fn run_phases<S: Exact>(t: Table<S>, budget: u32) -> Result<Ended<S>, RunError>
    requires { IsWrittenTable (shape_of_table t) (table_of t) }
    ensures shape { IfOk result (λ e. shape_of_table (last_of e) ≡ shape_of_table t) }
    ensures flips { IfOk result (λ e. flips_of (last_of e) ≡ flips_of t) }
    ensures value { run_end result
        ≡ written_run ordered_fractions (shape_of_table t) (is_too_wide S.MAX) budget (table_of t) }
{
    let mut t = t;
    match run_table(&mut t, budget) {
        Ok(EndKind::Infeasible) => Ok(Ended::Infeasible(t)),
        Ok(EndKind::Feasible) => Ok(Ended::Feasible(t)),
        Ok(EndKind::Optimal) => Ok(Ended::Optimal(t)),
        Ok(EndKind::Ray { column }) => Ok(Ended::Ray { table: t, column }),
        Err(RunStop::TooWide(place)) => Err(RunError::TooWide(place)),
        Err(RunStop::Spent) => Err(RunError::Spent),
        // The full table settles all.
        Err(RunStop::Unsettled) => unreachable!(),
    }
}

/// The run of a written table within a budget of pivots: exactly the value of the written run at the width of
/// its numbers.
///
/// Refused at the first operation that is too wide, or where a pivot is due and the budget's pivots are done,
/// whichever comes first; the table is dropped then. A budget that is `enough` for the table's columns is never
/// spent. Takes no memory. After Bland (1977).
pub fn run<S: Exact>(t: Table<S>, budget: u32) -> Result<Ended<S>, RunError>
    requires written { IsWrittenTable (shape_of_table t) (table_of t) }
    requires some { budget ≢ 0 }
    ensures shape { IfOk result (λ e. shape_of_table (last_of e) ≡ shape_of_table t) }
    ensures flips { IfOk result (λ e. flips_of (last_of e) ≡ flips_of t) }
    ensures value { run_end result
        ≡ written_run ordered_fractions (shape_of_table t) (is_too_wide S.MAX) budget (table_of t) }
    ensures ends { (P : Problem) → IsTableOf P (shape_of_table t) (table_of t) →
        EndGives ordered_fractions P (run_end result) }
    ensures suffices { (b : ℕ) → enough_of (columns (shape_of_table t)) ≡ Some b → b ≤ budget →
        result ≢ Err Spent }
{
    run_laws();
    budget_law();
    run_phases(t, budget)
}
