//! The laws of the outcome of stages, each a clause of a function that does nothing.

ghost use Rattle.stack_stages.specs.Staged.{StagesAreByStages, StagesAreDecided};

/// The outcome of all stages is that of the first one that isn't judged to stand, or that all are. Conversely, such a
/// first stage, or that all are judged to stand, decides the outcome of all.
pub fn stages_laws()
    ensures by_stages { StagesAreByStages }
    ensures decided { StagesAreDecided }
{}
