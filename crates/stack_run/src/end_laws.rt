//! The laws of the ends of the written run and of the leaving row, each a clause of a function that does nothing.

ghost use Rattle.stack_run.specs.LeavingRow.{LeavingRowIsBest, NoneIsPositive};
ghost use Rattle.stack_run.specs.EndLaws.{EndsGive, SomeRowLeaves};

/// What the four ends of a run give, for any problem, any budget and any rule of what is too wide; and that a row
/// leaves wherever a column enters in phase 1. After the duality of linear programs.
pub fn run_laws()
    ensures ends { EndsGive }
    ensures leaving { SomeRowLeaves }
{}

/// The row that leaves for a column has a positive cell there, of all such rows the least ratio, and among equal ratios
/// the least-numbered basic column; none leaves exactly if no row has a positive cell. After Bland (1977).
pub fn leaving_law()
    ensures row { LeavingRowIsBest }
    ensures none { NoneIsPositive }
{}
