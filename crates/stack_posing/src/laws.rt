//! The law of the problem, as a clause of a function that does nothing.

ghost use Rattle.stack_posing.specs.PosedSurvey.{SurveysArePosed};

/// The entries of the problem of a survey are what its columns and loads are.
pub fn survey_law()
    ensures { SurveysArePosed }
{}
