//! The words `stages MODEL ORDER [PIVOTS]`.

ghost use Rattle.std.specs.Prelude.{◌≡◌, ◌≢◌, ◌≤◌, ◌⊎◌, length};
ghost use Rattle.stack_outside.specs.Seen.{seen_shelf};
ghost use Rattle.stack_stages.specs.Stage.{stage as stage_structure};
ghost use Rattle.stack_stages.specs.Staged.{staged};
ghost use Rattle.stack_stages.specs.Gives.{stages_view};
ghost use Rattle.stack_work.specs.Answers.{stages_verdict as stages_verdict_of};
ghost use Rattle.stack_lines.specs.Refusals.{refusal_view, faulty};
ghost use Rattle.stack_work.specs.Judging.{wide_within};
ghost use Rattle.stack_work.specs.Building.{stages_step, order_work, ordered_file, stages_work};
ghost use Rattle.stack_work.specs.Progress.{Does, DoesAlone, AnswersDue};

use crate::forms::judging::wide_refusal;
use crate::reading::read_file;
use crate::surveying::survey_file;
use stack_contact::Survey;
use stack_judge::JudgePlace;
use stack_lines::{Answer, Input, Refusal, Verdict, Within};
use stack_orders::read_order;
use stack_outside::Shelf;
use stack_stages::{Stages, StagesError, stage_of, stages, write_stages};
use std::alloc::Global;

/// Whether all stages stand.
fn stages_verdict(found: &Stages) -> Verdict
    ensures { result ≡ stages_verdict_of (stages_view found.now) }
{
    match found {
        Stages::AllStand(_) => Verdict::Affirmed,
        Stages::Falls { .. } => Verdict::Denied,
    }
}

/// The refusal of a number of a stage that is too wide. A block in its place is one of that stage.
fn wide_stage(
    alloc: Global,
    survey: &Survey,
    order: &[usize],
    number: usize,
    place: JudgePlace,
) -> Refusal
    requires { number ≤ length order.now }
    ensures { (refusal_view result ≡ faulty (wide_within (Within.Stage number)
        (stage_structure survey.now.structure order.now number) place)) ⊎ (result ≡ Refusal.Memory) }
{
    match stage_of(alloc, survey, order, number) {
        Ok(stage) => wide_refusal(alloc, &stage, Within::Stage { number }, place),
        Err(_) => Refusal::Memory,
    }
}

/// The outcome of the stages of an order.
fn stages_survey(
    alloc: Global,
    survey: &Survey,
    order: &[usize],
    budget: u32,
) -> Result<Answer, Refusal>
    requires { budget ≢ 0 }
    ensures { DoesAlone AnswersDue (stages_step budget survey.now order.now (staged survey.now order.now budget))
        result }
{
    match stages(alloc, survey, order, budget) {
        Ok(found) => Ok(Answer {
            verdict: stages_verdict(&found),
            text: write_stages(alloc, found)?,
        }),
        Err(StagesError::TooWide { stage, place }) => {
            Err(wide_stage(alloc, survey, order, stage, place))
        }
        Err(StagesError::Spent { .. }) => Err(Refusal::Spent { budget }),
        Err(StagesError::Memory) => Err(Refusal::Memory),
    }
}

/// The outcome of the stages of the order in a text.
fn order_text(alloc: Global, text: &[u8], survey: &Survey, budget: u32) -> Result<Answer, Refusal>
    requires { budget ≢ 0 }
    ensures { DoesAlone AnswersDue (order_work budget survey.now text.now) result }
{
    match read_order(alloc, survey.model(), text) {
        Ok(order) => stages_survey(alloc, survey, order.as_slice(), budget),
        Err(fault) => Err(Refusal::from(fault)),
    }
}

/// The outcome of the stages of the order in a file.
fn order_file<F: Shelf>(
    alloc: Global,
    shelf: &mut F,
    name: &str,
    survey: &Survey,
    budget: u32,
) -> Result<Answer, Refusal>
    requires { budget ≢ 0 }
    ensures { Does AnswersDue (ordered_file name.now budget survey.now)
        (seen_shelf F.Shelf shelf.old shelf.new) result }
{
    match read_file(shelf, name, Input::Order) {
        Ok(text) => order_text(alloc, text.as_slice(), survey, budget),
        Err(refusal) => Err(refusal),
    }
}

/// The words `stages MODEL ORDER [PIVOTS]`.
pub fn stages_form<F: Shelf>(
    alloc: Global,
    shelf: &mut F,
    model: &str,
    order: &str,
    budget: u32,
) -> Result<Answer, Refusal>
    requires { budget ≢ 0 }
    ensures { Does AnswersDue (stages_work model.now order.now budget) (seen_shelf F.Shelf shelf.old shelf.new) result }
{
    match survey_file(alloc, shelf, model) {
        Ok(survey) => order_file(alloc, shelf, order, &survey, budget),
        Err(refusal) => Err(refusal),
    }
}
