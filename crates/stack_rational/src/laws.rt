//! Laws of exact numbers, each a clause of a function that does nothing.

ghost use Rattle.stack_rational.specs.Laws.{WiderIsNeverTooWide, AnswersFit, SmallFits};
ghost use Rattle.stack_rational.specs.Laws.{WholeIsTooWideAtWidest, OrderLaws};

/// An operation that isn't too wide at a smaller greatest value isn't too wide at a greater one, and gives the same
/// value.
pub fn wider_law()
    ensures { WiderIsNeverTooWide }
{}

/// An answer that isn't refused fits; nothing is refused of 0, 1 and -1; at 128 bits a whole number is refused exactly
/// if it isn't one of stack_whole.
pub fn fraction_fitting_law()
    ensures answers { AnswersFit }
    ensures small { SmallFits }
    ensures widest { WholeIsTooWideAtWidest }
{}

/// The order is total, and agrees with the values.
pub fn order_law()
    ensures { OrderLaws }
{}
