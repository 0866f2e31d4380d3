//! What is true of the worked structures, as clauses of functions that do nothing.

ghost use Rattle.stack_worked.specs.WorkedScenes.{TrueOfWorkedScenes, FalseOfWorkedScenes};
ghost use Rattle.stack_worked.specs.WorkedFactors.{FactorsOfWorkedScenes};
ghost use Rattle.stack_worked.specs.SurveyedPost.{PostIsTaken, PostIsSurveyed, PostSceneIsWorked};
ghost use Rattle.stack_worked.specs.SurveyedPost.{TheSameIsTrueOfThePost, CertificatesOfPost};
ghost use Rattle.stack_worked.specs.WorkedFiles.{WorkedFiles};

use stack_equilibrium::certificate_laws;
use stack_rectangle::rectangles_by_ranges;
use stack_said::accepted_is_true_of_files;

/// Small structures worked by hand: certificates that are true of them, and changed copies that aren't.
pub fn worked_scenes()
    ensures holds { TrueOfWorkedScenes }
    ensures fails { FalseOfWorkedScenes }
{}

/// What the true ones show of the factors that are carried.
pub fn worked_factors()
    ensures { FactorsOfWorkedScenes }
{
    certificate_laws();
}

/// The pushed post as it is drawn: its survey, whose scene is the one worked by hand, and what is true and false
/// of it.
pub fn drawn_post_law()
    ensures taken { PostIsTaken }
    ensures survey { PostIsSurveyed }
    ensures scene { PostSceneIsWorked }
    ensures same { TheSameIsTrueOfThePost }
    ensures certificates { CertificatesOfPost }
{
    rectangles_by_ranges();
}

/// The pushed post from the bytes of its files, TOML grammar and all: those of its model are an accepted model, those
/// of a certificate hold one that is true of it, and those of a changed copy don't.
pub fn worked_files()
    ensures { WorkedFiles }
{
    drawn_post_law();
    accepted_is_true_of_files();
}
