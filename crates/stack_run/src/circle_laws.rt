//! The laws of circles and of budgets of the written run, each a clause of a function that does nothing.

ghost use Rattle.stack_run.specs.CircleLaws.{NoSetRecurs, NoListRecurs, RunGoesOn, LastTableReached};
ghost use Rattle.stack_run.specs.CircleLaws.{ArtificialColumnsLeave, PhasesAreShort, RunsAreShort, BudgetSuffices};
ghost use Rattle.stack_run.specs.CircleLaws.{EnoughSuffices};

/// Within a phase of the written run no set of basic columns recurs, and so no list does, whatever the budget
/// and the rule of what is too wide. The tables spoken of are those of the run: it goes on from each, and ends at one.
/// After Bland (1977).
pub fn circles_law()
    ensures sets { NoSetRecurs }
    ensures lists { NoListRecurs }
    ensures run { RunGoesOn }
    ensures last { LastTableReached }
    ensures second { ArtificialColumnsLeave }
{}

/// A phase has fewer than 2^columns pivots, a run fewer than 3*2^columns, and a budget of at least that is never
/// spent; the columns are all but the right side.
pub fn budget_law()
    ensures phases { PhasesAreShort }
    ensures runs { RunsAreShort }
    ensures budget { BudgetSuffices }
    ensures enough { EnoughSuffices }
{}
