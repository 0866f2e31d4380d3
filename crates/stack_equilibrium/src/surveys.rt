//! What holds of the scene of a survey.

ghost use Rattle.stack_statics.specs.Scene.{IsProper};
ghost use Rattle.stack_equilibrium.specs.SurveyScene.{scene_of};
ghost use Rattle.stack_equilibrium.specs.Answers.{SumsAreThoseOfTheScene, RatesAreThoseOfTheScene};
ghost use Rattle.stack_equilibrium.specs.Answers.{PowersAreThoseOfTheScene};

use stack_contact::Survey;

/// Each survey's scene meets the premise of the laws of certificates: each bearing lies between an earlier and
/// a later body, and its coefficient has a positive denominator and no negative numerator. Does nothing.
pub fn proper(s: &Survey)
    ensures { IsProper (scene_of s.now) }
{
    s.within();
}

/// Where no number of the written order is too wide, the sums, the openings and the powers are those of the scene.
/// Does nothing.
pub fn written_laws()
    ensures sums { SumsAreThoseOfTheScene }
    ensures rates { RatesAreThoseOfTheScene }
    ensures powers { PowersAreThoseOfTheScene }
{}
