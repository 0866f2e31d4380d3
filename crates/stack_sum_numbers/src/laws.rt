//! The laws of the numbers of written sums, each a clause of a function that does nothing.

ghost use Rattle.stack_sum_numbers.specs.InTurn.{OneIsTooWideOrAllFit};
ghost use Rattle.stack_sum_numbers.specs.SumNumbers.{SumIsMadeOfItsNumbers, NumbersEndInTheSum};
ghost use Rattle.stack_sum_numbers.specs.SumNumbers.{SumsAreMadeOfTheirNumbers, SurveySumsAreMadeOfTheirNumbers};
ghost use Rattle.stack_sum_numbers.specs.RateNumbers.{RatesAreMadeOfTheirNumbers};
ghost use Rattle.stack_sum_numbers.specs.PowerNumbers.{PowerIsMadeOfItsNumbers, PowerIsTheWorkOnFreeBlocks};
ghost use Rattle.stack_sum_numbers.specs.WorkedNumbers.{WorkedSums, WorkedSumsAtTheLimit, WorkedRates, WorkedPowers};

/// Of a list of numbers one is more than 2^127 - 1 in size exactly if not all fit.
pub fn fitting_list_law()
    ensures { OneIsTooWideOrAllFit }
{}

/// A block's written sum along an axis is the exact sum exactly if all numbers of its list fit, and is refused exactly
/// if one of them is too wide; the last of them is the sum. Its three sums are refused with the first axis one of whose
/// numbers is too wide, and so are those of each body of a survey.
pub fn sum_number_laws()
    ensures one { SumIsMadeOfItsNumbers }
    ensures last { NumbersEndInTheSum }
    ensures three { SumsAreMadeOfTheirNumbers }
    ensures survey { SurveySumsAreMadeOfTheirNumbers }
{}

/// A bearing's written opening and slide are those of the scene exactly if all numbers of their list fit, and are
/// refused exactly if one of them is too wide.
pub fn rate_number_laws()
    ensures { RatesAreMadeOfTheirNumbers }
{}

/// The written power of the loads on a motion is that of the scene exactly if all numbers of its list fit, and is
/// refused exactly if one of them is too wide.
pub fn power_number_laws()
    ensures scene { PowerIsMadeOfItsNumbers }
    ensures frees { PowerIsTheWorkOnFreeBlocks }
{}

/// The lists of a post that tips, worked by hand, and numbers at the limit and beyond.
pub fn worked_numbers()
    ensures sums { WorkedSums }
    ensures limit { WorkedSumsAtTheLimit }
    ensures rates { WorkedRates }
    ensures powers { WorkedPowers }
{}
