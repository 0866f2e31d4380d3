//! The four ends of a run.

use stack_rational::Exact;
use stack_table::Table;

/// How a run ended, with its last table.
#[derive(Drop)]
pub enum Ended<S: Exact> {
    /// No amounts balance: the objective row has multipliers that refute it.
    Infeasible(Table<S>),
    /// The values balance; there is no factor.
    Feasible(Table<S>),
    /// The values balance with the greatest factor.
    Optimal(Table<S>),
    /// The values balance, and the factor rises without limit along a column that no row limits.
    Ray { table: Table<S>, column: usize },
}
