//! A law of the written run, a clause of a function that does nothing.

ghost use Rattle.stack_run.specs.ProblemRun.{WiderRunIsSame};

/// A run that is nowhere too wide at a greatest value is the same run at a greater one.
pub fn wider_run_law()
    ensures { WiderRunIsSame }
{}
