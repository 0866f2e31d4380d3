//! The four ends of a run, without their tables.

/// How a run ended.
#[derive(Clone, Copy, Debug, PartialEq, Eq)]
pub enum EndKind {
    /// No amounts balance: the objective row has multipliers that refute it.
    Infeasible,
    /// The values balance; there is no factor.
    Feasible,
    /// The values balance with the greatest factor.
    Optimal,
    /// The values balance, and the factor rises without limit along a column that no row limits.
    Ray { column: usize },
}
