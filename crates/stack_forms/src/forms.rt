//! The forms of words, and the work on each: a module for each form or family of forms.

ghost use Rattle.stack_outside.specs.Seen.{seen_shelf};
ghost use Rattle.stack_work.specs.Forms.{form_view, HasBudget, work_of};
ghost use Rattle.stack_work.specs.Progress.{Does, AnswersDue};

pub mod building;
pub mod checking;
pub mod judging;
pub mod listing;
pub mod ranging;
pub mod sampling;
pub mod stacking;
pub mod tabling;
pub mod yielding;

use building::stages_form;
use checking::certificate_form;
use judging::judge_form;
use listing::contacts_form;
use ranging::range_form;
use sampling::sample_form;
use stack_lines::{Answer, Refusal};
use stack_outside::Shelf;
use stack_work::{Asked, Form};
use stacking::stack_form;
use std::alloc::Global;
use yielding::yield_form;

/// The answer to a form of words, or the first step of its order of work that refuses.
pub fn answer_form<F: Shelf>(
    alloc: Global,
    form: Form<'_>,
    shelf: &mut F,
) -> Result<Answer, Refusal>
    requires { HasBudget form }
    ensures { Does AnswersDue (work_of (form_view form.entry)) (seen_shelf F.Shelf shelf.old shelf.new) result }
{
    match form {
        Form::Check { model, certificate } => {
            certificate_form(alloc, shelf, model, certificate, Asked::Acceptance)
        }
        Form::Contacts { model } => contacts_form(alloc, shelf, model),
        Form::Judge {
            question,
            model,
            budget,
        } => judge_form(alloc, shelf, question, model, budget),
        Form::Table { model, certificate } => {
            certificate_form(alloc, shelf, model, certificate, Asked::Tables)
        }
        Form::Stack { kind, size } => stack_form(alloc, kind, size),
        Form::Sample { number } => sample_form(alloc, number),
        Form::Range { model, budget } => range_form(alloc, shelf, model, budget),
        Form::Stages {
            model,
            order,
            budget,
        } => stages_form(alloc, shelf, model, order, budget),
        Form::Yield {
            model,
            first,
            second,
            directions,
            budget,
        } => yield_form(alloc, shelf, model, first, second, directions, budget),
    }
}
