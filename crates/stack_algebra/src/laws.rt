//! The laws of this crate, each a clause of a function that does nothing.

ghost use Rattle.stack_algebra.specs.Laws.{WholeNumberLaws, NormalFormsDecide, SumLaws, GcdIsGreatest};
ghost use Rattle.stack_algebra.specs.Laws.{FractionsAreValues, FractionField, PivotsKeepTableaus};
ghost use Rattle.stack_algebra.specs.Laws.{LeastRatioKeepsRightSides};

/// Whole numbers are a commutative ring, and products keep their order.
pub fn whole_number_laws()
    ensures { WholeNumberLaws }
{}

/// Polynomial identities are decided by normal forms.
pub fn polynomial_law()
    ensures { NormalFormsDecide }
{}

/// Sums are linear, and two of them may be exchanged.
pub fn sum_laws()
    ensures { SumLaws }
{}

/// The greatest common divisor is what its name says.
pub fn divisor_law()
    ensures { GcdIsGreatest }
{}

/// Fractions in lowest terms are an ordered field, and equal numbers are one fraction.
pub fn fraction_laws()
    ensures values { FractionsAreValues }
    ensures field { FractionField }
{}

/// What a pivot keeps: rows are combinations of the first rows, basic columns are unit columns, right sides aren't
/// negative.
pub fn tableau_laws()
    ensures pivots { PivotsKeepTableaus }
    ensures right_sides { LeastRatioKeepsRightSides }
{}
