//! The laws of models, each a clause of a function that does nothing.

ghost use Rattle.stack_model.specs.JointLaws.{TermsInEitherOrder, JointsHaveTheirTerms};
ghost use Rattle.stack_model.specs.Part.{PartsAreSound};
ghost use Rattle.stack_model.specs.Taken.{SoundIsTaken};

/// The terms of two materials are the same in either order, and a model's joint has those of its two materials.
pub fn joint_laws()
    ensures order { TermsInEitherOrder }
    ensures own { JointsHaveTheirTerms }
{}

/// What holds of a model's structure is enough: whatever has it is taken without a fault where it is listed, and is
/// the same.
pub fn taken_law()
    ensures { SoundIsTaken }
{}

/// Whichever bodies are kept, what holds of the structure of every model holds of the part.
pub fn part_law()
    ensures { PartsAreSound }
{}
