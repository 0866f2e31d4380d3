//! Laws of parts, each a clause of a function that does nothing.

ghost use Rattle.stack_model.specs.Part.{PartsAreSound};
ghost use Rattle.stack_part.specs.Laws.{PartsAreSurveyed};

/// Whichever bodies are kept, what holds of the structure of every model holds of the part, and the part of a survey is
/// the survey of the part.
pub fn part_laws()
    ensures sound { PartsAreSound }
    ensures surveyed { PartsAreSurveyed }
{}
