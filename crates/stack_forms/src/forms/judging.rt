//! The words `stand MODEL [PIVOTS]` and `load MODEL [PIVOTS]`.

ghost use Rattle.std.specs.Prelude.{◌≡◌, ◌≢◌, ◌⊎◌};
ghost use Rattle.stack_outside.specs.Seen.{seen_shelf};
ghost use Rattle.stack_certificate.specs.Certificate.{certificate_view};
ghost use Rattle.stack_work.specs.Answers.{verdict_of as verdict_of_value};
ghost use Rattle.stack_lines.specs.Refusals.{refusal_view, faulty};
ghost use Rattle.stack_work.specs.Judging.{wide_within, judged, judge_work};
ghost use Rattle.stack_work.specs.Progress.{Does, DoesAlone, AnswersDue};

use crate::surveying::survey_file;
use stack_certificate::{Certificate, short_text, write_certificate};
use stack_contact::Survey;
use stack_equilibrium::Question;
use stack_judge::{JudgeError, JudgePlace, judge};
use stack_lines::{Answer, Refusal, Verdict, Within, wide_place};
use stack_outside::Shelf;
use std::alloc::Global;

/// Whether the structure carries what is asked.
fn verdict_of(certificate: &Certificate) -> Verdict
    ensures { result ≡ verdict_of_value (certificate_view certificate.now) }
{
    match certificate {
        Certificate::Collapses(_) => Verdict::Denied,
        _ => Verdict::Affirmed,
    }
}

/// The refusal of a number that is too wide.
pub fn wide_refusal(alloc: Global, survey: &Survey, within: Within, place: JudgePlace) -> Refusal
    ensures { (refusal_view result ≡ faulty (wide_within within survey.now.structure place))
        ⊎ (result ≡ Refusal.Memory) }
{
    match place {
        JudgePlace::Run(place) => Refusal::WideRun { within, place },
        JudgePlace::End(place) => Refusal::WideEnd { within, place },
        JudgePlace::Check(place) => match wide_place(alloc, survey, place.at) {
            Ok(at) => Refusal::WideCheck {
                within,
                part: place.part,
                place: at,
            },
            Err(_) => Refusal::Memory,
        },
    }
}

/// The judgement of a survey.
fn judge_survey(
    alloc: Global,
    survey: &Survey,
    question: Question,
    budget: u32,
) -> Result<Answer, Refusal>
    requires { budget ≢ 0 }
    ensures { DoesAlone AnswersDue (judged question budget survey.now) result }
{
    short_text();
    match judge(alloc, survey, question, budget) {
        Ok(certificate) => Ok(Answer {
            verdict: verdict_of(&certificate),
            text: write_certificate(alloc, &certificate)?,
        }),
        Err(JudgeError::TooWide(place)) => Err(wide_refusal(alloc, survey, Within::Whole, place)),
        Err(JudgeError::Spent { budget }) => Err(Refusal::Spent { budget }),
        Err(JudgeError::NoLive) => Err(Refusal::NoLive),
        Err(JudgeError::Memory) => Err(Refusal::Memory),
    }
}

/// The words `stand MODEL [PIVOTS]` and `load MODEL [PIVOTS]`.
pub fn judge_form<F: Shelf>(
    alloc: Global,
    shelf: &mut F,
    question: Question,
    model: &str,
    budget: u32,
) -> Result<Answer, Refusal>
    requires { budget ≢ 0 }
    ensures { Does AnswersDue (judge_work question model.now budget) (seen_shelf F.Shelf shelf.old shelf.new) result }
{
    match survey_file(alloc, shelf, model) {
        Ok(survey) => judge_survey(alloc, &survey, question, budget),
        Err(refusal) => Err(refusal),
    }
}
