//! The survey of the model in a file, whose refusals name bodies.

ghost use Rattle.std.specs.Prelude.{◌≡◌, [], map, get_or, IfOk, string_bytes};
ghost use Rattle.stack_outside.specs.Seen.{seen_shelf};
ghost use Rattle.stack_model.specs.Structure.{Structure};
ghost use Rattle.stack_model.specs.ModelView.{model_view};
ghost use Rattle.stack_lines.specs.Refusals.{refusal_view, faulty};
ghost use Rattle.stack_work.specs.Work.{surveys};
ghost use Rattle.stack_work.specs.Surveying.{structure_names, from_survey, survey_step, surveyed_file};
ghost use Rattle.stack_work.specs.Progress.{Does, DoesAlone, IsSeenSurvey};

use crate::reading::model_file;
use stack_contact::{Survey, SurveyError, survey};
use stack_lines::Refusal;
use stack_model::Model;
use stack_outside::Shelf;
use std::alloc::{AllocError, Global};

/// The names of all bodies, in order.
fn names_of(alloc: Global, model: &Model) -> Result<Vec<String>, AllocError>
    ensures { IfOk result (λ v. map string_bytes v.items ≡ structure_names (model_view model.now)) }
{
    let mut names = Vec::new(alloc);
    for i in 0..model.bodies() {
        names.push(String::from_str(alloc, model.name(i))?)?;
    }
    Ok(names)
}

/// A name by its number; empty if there is none.
fn name_at(names: &[String], i: usize) -> &str
    ensures { result.now ≡ get_or (map string_bytes names.now) i [] }
{
    match names.get(i) {
        Some(name) => name.as_str(),
        None => "",
    }
}

/// Why a model with these names has no survey.
fn unsurveyed(alloc: Global, names: &[String], error: SurveyError) -> Result<Refusal, AllocError>
    ensures { (s : Structure) → map string_bytes names.now ≡ structure_names s →
        IfOk result (λ r. refusal_view r ≡ faulty (from_survey s error)) }
{
    match error {
        SurveyError::Overlap { first, second } => Ok(Refusal::Overlap {
            first: String::from_str(alloc, name_at(names, first))?,
            second: String::from_str(alloc, name_at(names, second))?,
        }),
        SurveyError::TooManyBearings { count } => Ok(Refusal::ManyBearings { count }),
        SurveyError::Memory => Ok(Refusal::Memory),
    }
}

/// The survey of a model. The model is consumed, so its names are read before.
pub fn survey_model(alloc: Global, model: Model) -> Result<Survey, Refusal>
    ensures { DoesAlone IsSeenSurvey (surveys (model_view model) (survey_step (model_view model))) result }
{
    let names = names_of(alloc, &model)?;
    match survey(alloc, model) {
        Ok(survey) => Ok(survey),
        Err(error) => Err(unsurveyed(alloc, names.as_slice(), error)?),
    }
}

/// The survey of the model in a file.
pub fn survey_file<F: Shelf>(alloc: Global, shelf: &mut F, name: &str) -> Result<Survey, Refusal>
    ensures { Does IsSeenSurvey (surveyed_file name.now) (seen_shelf F.Shelf shelf.old shelf.new) result }
{
    match model_file(alloc, shelf, name) {
        Ok(model) => survey_model(alloc, model),
        Err(refusal) => Err(refusal),
    }
}
