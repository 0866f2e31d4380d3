//! The words `stack KIND N`.

ghost use Rattle.stack_model.specs.ModelView.{model_view};
ghost use Rattle.stack_overhang.specs.Gives.{GivesStack};
ghost use Rattle.stack_work.specs.Answers.{document};
ghost use Rattle.stack_work.specs.Work.{gives};
ghost use Rattle.stack_work.specs.Stacking.{stack_of, built_step, stack_work};
ghost use Rattle.stack_work.specs.Progress.{DoesAlone, IsModel, AnswersDue};

use crate::reading::GREATEST_FILE;
use stack_lines::{Answer, Refusal, Verdict};
use stack_model::Model;
use stack_overhang::{StackError, harmonic, slab, triangle};
use stack_work::Kind;
use std::alloc::Global;

/// The built-in stack of this kind and size.
fn stack(alloc: Global, kind: Kind, size: u32) -> Result<Model, StackError>
    ensures { GivesStack result (stack_of kind size) }
{
    match kind {
        Kind::Harmonic => harmonic(alloc, size),
        Kind::Triangle => triangle(alloc, size),
        Kind::Slab => slab(alloc, size),
    }
}

/// The same, or the refusal of its size.
fn build_stack(alloc: Global, kind: Kind, size: u32) -> Result<Model, Refusal>
    ensures { DoesAlone IsModel (built_step (stack_of kind size)) result }
{
    match stack(alloc, kind, size) {
        Ok(model) => Ok(model),
        Err(error) => Err(Refusal::from(error)),
    }
}

/// The document of a model. The function that lays it out promises no length: a document that would be too long to be
/// read isn't given, as if memory had run out.
fn described(alloc: Global, model: &Model) -> Result<Answer, Refusal>
    ensures { DoesAlone AnswersDue (gives (document (model_view model.now))) result }
{
    let text = stack_reader::write_model(alloc, model)?;
    if text.len() > GREATEST_FILE {
        return Err(Refusal::Memory);
    }
    Ok(Answer {
        verdict: Verdict::Affirmed,
        text,
    })
}

/// The words `stack KIND N`.
pub fn stack_form(alloc: Global, kind: Kind, size: u32) -> Result<Answer, Refusal>
    ensures { DoesAlone AnswersDue (stack_work kind size) result }
{
    match build_stack(alloc, kind, size) {
        Ok(model) => described(alloc, &model),
        Err(refusal) => Err(refusal),
    }
}
