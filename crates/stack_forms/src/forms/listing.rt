//! The words `contacts MODEL`.

ghost use Rattle.stack_outside.specs.Seen.{seen_shelf};
ghost use Rattle.stack_work.specs.Listing.{contacts_due, contacts_work};
ghost use Rattle.stack_work.specs.Progress.{Does, DoesAlone, AnswersDue};

use crate::surveying::survey_file;
use stack_contact::Survey;
use stack_lines::{Answer, Refusal, Verdict};
use stack_outside::Shelf;
use std::alloc::Global;

/// The table of the contacts of a survey.
fn list(alloc: Global, survey: &Survey) -> Result<Answer, Refusal>
    ensures { DoesAlone AnswersDue (contacts_due survey.now) result }
{
    Ok(Answer {
        verdict: Verdict::Affirmed,
        text: stack_report::contact_table(alloc, survey)?,
    })
}

/// The words `contacts MODEL`.
pub fn contacts_form<F: Shelf>(alloc: Global, shelf: &mut F, model: &str) -> Result<Answer, Refusal>
    ensures { Does AnswersDue (contacts_work model.now) (seen_shelf F.Shelf shelf.old shelf.new) result }
{
    match survey_file(alloc, shelf, model) {
        Ok(survey) => list(alloc, &survey),
        Err(refusal) => Err(refusal),
    }
}
