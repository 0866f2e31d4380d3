//! The words `range MODEL [PIVOTS]`.

ghost use Rattle.std.specs.Prelude.{◌≡◌, ◌≢◌};
ghost use Rattle.stack_outside.specs.Seen.{seen_shelf};
ghost use Rattle.stack_range.specs.Ranged.{range_view};
ghost use Rattle.stack_work.specs.Answers.{range_verdict as range_verdict_of};
ghost use Rattle.stack_work.specs.Ranging.{within_of, range_told, range_work};
ghost use Rattle.stack_work.specs.Progress.{Does, DoesAlone, AnswersDue};

use crate::forms::judging::wide_refusal;
use crate::surveying::survey_file;
use stack_contact::Survey;
use stack_lines::{Answer, Refusal, Verdict, Within};
use stack_outside::Shelf;
use stack_range::{Range, RangeError, Side, range, write_range};
use std::alloc::Global;

/// Whether the dead loads stand.
fn range_verdict(found: &Range) -> Verdict
    ensures { result ≡ range_verdict_of (range_view found.now) }
{
    match found {
        Range::Collapses(_) => Verdict::Denied,
        Range::Between { .. } => Verdict::Affirmed,
    }
}

/// How the judgement of a side is named.
fn within(side: Side) -> Within
    ensures { result ≡ within_of side }
{
    match side {
        Side::Greatest => Within::Whole,
        Side::Least => Within::LeastSide,
    }
}

/// The range of a survey.
fn range_survey(alloc: Global, survey: &Survey, budget: u32) -> Result<Answer, Refusal>
    requires { budget ≢ 0 }
    ensures { DoesAlone AnswersDue (range_told budget survey.now) result }
{
    match range(alloc, survey, budget) {
        Ok(found) => {
            let verdict = range_verdict(&found);
            match write_range(alloc, found) {
                Ok(text) => Ok(Answer { verdict, text }),
                Err(_) => Err(Refusal::Memory),
            }
        }
        Err(RangeError::TooWide { side, place }) => Err(wide_refusal(
            alloc,
            survey,
            within(side),
            place,
        )),
        Err(RangeError::Spent { .. }) => Err(Refusal::Spent { budget }),
        Err(RangeError::NoLive) => Err(Refusal::NoLive),
        Err(RangeError::Memory) => Err(Refusal::Memory),
    }
}

/// The words `range MODEL [PIVOTS]`.
pub fn range_form<F: Shelf>(
    alloc: Global,
    shelf: &mut F,
    model: &str,
    budget: u32,
) -> Result<Answer, Refusal>
    requires { budget ≢ 0 }
    ensures { Does AnswersDue (range_work model.now budget) (seen_shelf F.Shelf shelf.old shelf.new) result }
{
    match survey_file(alloc, shelf, model) {
        Ok(survey) => range_survey(alloc, &survey, budget),
        Err(refusal) => Err(refusal),
    }
}
