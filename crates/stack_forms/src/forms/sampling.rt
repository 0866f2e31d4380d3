//! The words `sample N`.

ghost use Rattle.std.specs.Prelude.{IfOk};
ghost use Rattle.stack_model.specs.Structure.{HasLive};
ghost use Rattle.stack_model.specs.ModelView.{model_view};
ghost use Rattle.stack_certificate.specs.Certificate.{certificate_view};
ghost use Rattle.stack_equilibrium.specs.declared.types.Question.TheVariants.{Live};
ghost use Rattle.stack_judge.specs.Judged.{IsJudged};
ghost use Rattle.stack_work.specs.Answers.{summary};
ghost use Rattle.stack_work.specs.Work.{gives};
ghost use Rattle.stack_work.specs.Stacking.{built_step};
ghost use Rattle.stack_work.specs.Sampling.{sample_of, sampled, wall_sampled, sample_work};
ghost use Rattle.stack_work.specs.Progress.{DoesAlone, IsModel, AnswersDue};

use crate::forms::judging::wide_refusal;
use crate::surveying::survey_model;
use stack_certificate::Certificate;
use stack_contact::Survey;
use stack_equilibrium::Question;
use stack_judge::{JudgeError, judge_marked};
use stack_lines::{Answer, Refusal, Verdict, Within};
use stack_model::Model;
use stack_overhang::wall;
use stack_report::sample_summary;
use stack_work::DEFAULT_BUDGET;
use std::alloc::Global;

/// The wall with this number.
fn build_wall(alloc: Global, number: u32) -> Result<Model, Refusal>
    ensures does { DoesAlone IsModel (built_step (sample_of number)) result }
    ensures live { IfOk result (λ m. HasLive (model_view m)) }
{
    match wall(alloc, number) {
        Ok(model) => Ok(model),
        Err(error) => Err(Refusal::from(error)),
    }
}

/// The summary of a certificate.
fn summary_answer(
    alloc: Global,
    number: u32,
    survey: &Survey,
    certificate: &Certificate,
    narrow: bool,
) -> Result<Answer, Refusal>
    requires { IsJudged Live survey.now (certificate_view certificate.now) }
    ensures { DoesAlone AnswersDue (gives (summary number survey.now
        (certificate_view certificate.now) narrow)) result }
{
    Ok(Answer {
        verdict: Verdict::Affirmed,
        text: sample_summary(alloc, number, survey, certificate, narrow)?,
    })
}

/// The summary of the judgement of a wall's survey.
fn sample_survey(alloc: Global, number: u32, survey: &Survey) -> Result<Answer, Refusal>
    requires { HasLive survey.now.structure }
    ensures { DoesAlone AnswersDue (sampled number survey.now) result }
{
    match judge_marked(alloc, survey, Question::Live, DEFAULT_BUDGET) {
        Ok((certificate, narrow)) => summary_answer(alloc, number, survey, &certificate, narrow),
        Err(JudgeError::TooWide(place)) => Err(wide_refusal(alloc, survey, Within::Whole, place)),
        Err(JudgeError::Spent { budget }) => Err(Refusal::Spent { budget }),
        Err(JudgeError::NoLive) => unreachable!(),
        Err(JudgeError::Memory) => Err(Refusal::Memory),
    }
}

/// The summary of a wall.
fn sample_wall(alloc: Global, number: u32, model: Model) -> Result<Answer, Refusal>
    requires { HasLive (model_view model) }
    ensures { DoesAlone AnswersDue (wall_sampled number (model_view model)) result }
{
    match survey_model(alloc, model) {
        Ok(survey) => sample_survey(alloc, number, &survey),
        Err(refusal) => Err(refusal),
    }
}

/// The words `sample N`.
pub fn sample_form(alloc: Global, number: u32) -> Result<Answer, Refusal>
    ensures { DoesAlone AnswersDue (sample_work number) result }
{
    match build_wall(alloc, number) {
        Ok(model) => sample_wall(alloc, number, model),
        Err(refusal) => Err(refusal),
    }
}
