//! The laws of the certificates of ends, each a clause of a function that does nothing.

ghost use Rattle.stack_extract.specs.WholeEnds.{EndsAreWhole};
ghost use Rattle.stack_extract.specs.EndLaws.{EndsAreCertified, EndsAreOfTheQuestion, EndsPush};

/// What the whole numbers of each end do to the problem, whatever is too wide in its run and whatever the budget:
/// they are multipliers that refute any balance, amounts that balance, or such amounts with multipliers that
/// bound the factor or with a ray that raises it. No amount is negative.
pub fn end_law()
    ensures { EndsAreWhole }
{}

/// Whatever is too wide in a run, and whatever its budget: the certificate of its end is true of the survey and answers
/// the question, the dead loads stand exactly if it isn't a collapse, and no amount of forces or of a ray is negative.
/// An end without a factor comes only for dead loads, one with a factor only for live loads.
pub fn certified_laws()
    ensures certified { EndsAreCertified }
    ensures question { EndsAreOfTheQuestion }
    ensures pushes { EndsPush }
{}
