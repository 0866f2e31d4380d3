//! Laws of the judgement of a survey, each a clause of a function that does nothing.

ghost use Rattle.stack_judge.specs.Judgement.{EachEndIsJudged};
ghost use Rattle.stack_judge.specs.Judged.{JudgementsAreOfTheQuestion, JudgementsAreCertified, JudgementsAreJudged};
ghost use Rattle.stack_judge.specs.ProblemColumns.{TablesHaveThese};

use stack_posing::free_body_laws;

/// The table of a survey's problem has two columns for each bearing, one for the live loads if these are asked about,
/// and three for each free block, besides the right side.
pub fn columns_law()
    ensures { TablesHaveThese }
{
    free_body_laws();
}

/// Each end of a run is judged: a certificate is found, a number is too wide, or the budget is spent. A certificate
/// answers the question. If the scene is proper, it is true and says whether the dead loads stand; for a survey of a
/// structure within its limits it is accepted, its numbers fit and its lists are few.
pub fn judgement_law()
    ensures ends { EachEndIsJudged }
    ensures question { JudgementsAreOfTheQuestion }
    ensures certified { JudgementsAreCertified }
    ensures judged { JudgementsAreJudged }
{}
