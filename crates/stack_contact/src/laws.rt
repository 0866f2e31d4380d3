//! Laws of surveys, each a clause of a function that does nothing.

ghost use Rattle.stack_contact.specs.FrictionLaws.{LesserWithoutJoints, JointDecides};
ghost use Rattle.stack_contact.specs.OneSurvey.{StructuresHaveOneSurvey};

/// A structure has one survey: two answers to it are the same, unless memory ran out. So it has a survey,
/// or its first overlap, or too many bearings, and no two of these.
pub fn one_survey()
    ensures { StructuresHaveOneSurvey }
{}

/// The friction between two bodies is that of the joint of their materials, or else the lesser of the two: so a
/// structure without joints has the lesser everywhere.
pub fn friction_law()
    ensures lesser { LesserWithoutJoints }
    ensures joint { JointDecides }
{}
