//! The survey of a model, and what it says.

ghost use Rattle.std.specs.Prelude.{◌≡◌, ◌<◌, ◌≤◌, false, length, slice_index, IfOk};
ghost use Rattle.stack_model.specs.Structure.{body_of};
ghost use Rattle.stack_model.specs.ModelView.{model_view};
ghost use Rattle.stack_model.specs.Sound.{IsSound};
ghost use Rattle.stack_whole.specs.Limits.{most_free};
ghost use Rattle.stack_contact.specs.FreeBlocks.{frees_of, free_of, frees_before};
ghost use Rattle.stack_contact.specs.Surveyed.{Surveys, IsSurvey, surveyed};

use crate::lists::all_found;
use crate::types::{Bearing, Survey, SurveyError, Touch};
use stack_model::Model;
use stack_whole::MOST_BEARINGS;
use std::alloc::{AllocError, Global};

/// The survey of a model: exactly its bearings and its touches. Pairs of two fixed bodies are left out. Refused
/// are, in this order: a model with a pair that no edge of either body separates, with the least such pair, and
/// one with more than 1,024 bearings, with their number. Memory may run out at any time.
pub fn survey(alloc: Global, model: Model) -> Result<Survey, SurveyError>
    ensures { Surveys (model_view model) result }
{
    let found = all_found(alloc, &model)?;
    let count = found.bearings.len();
    if count > MOST_BEARINGS {
        return Err(SurveyError::TooManyBearings { count });
    }
    Ok(Survey {
        model,
        bearings: found.bearings,
        touches: found.touches,
    })
}

/// The survey of a model that has these bearings and these touches.
pub fn survey_of(model: Model, bearings: Vec<Bearing>, touches: Vec<Touch>) -> Survey
    requires { IsSurvey (model_view model) (surveyed (model_view model) bearings.items touches.items) }
    ensures { result ≡ surveyed (model_view model) bearings.items touches.items }
{
    Survey {
        model,
        bearings,
        touches,
    }
}

/// The survey of a model whose materials, joints and bodies are those of a survey: its bearings and its touches are the
/// same, whatever its loads and its sway. `AllocError` if memory ran out.
pub fn survey_again(alloc: Global, s: &Survey, model: Model) -> Result<Survey, AllocError>
    requires materials { (model_view model).materials ≡ s.now.structure.materials }
    requires joints { (model_view model).joints ≡ s.now.structure.joints }
    requires bodies { (model_view model).bodies ≡ s.now.structure.bodies }
    ensures { IfOk result (λ r. r ≡ surveyed (model_view model) s.now.bearings s.now.touches) }
{
    let bearings = Vec::from_slice(alloc, s.bearings())?;
    let touches = Vec::from_slice(alloc, s.touches())?;
    Ok(Survey {
        model,
        bearings,
        touches,
    })
}

impl Survey {
    /// The model.
    pub fn model(&self) -> &Model
        ensures { model_view result.now ≡ self.now.structure }
    {
        &self.model
    }

    /// The bearings, by first body, second body, x and y.
    pub fn bearings(&self) -> &[Bearing]
        ensures value { result.now ≡ self.now.bearings }
        ensures survey { IsSurvey self.now.structure self.now }
    {
        self.bearings.as_slice()
    }

    /// The touches, by first body, second body, x and y.
    pub fn touches(&self) -> &[Touch]
        ensures { result.now ≡ self.now.touches }
    {
        self.touches.as_slice()
    }

    /// A survey is that of its model, which is sound: no more bearings and no more free blocks than there may be. Does
    /// nothing.
    pub fn within(&self)
        ensures sound { IsSound self.now.structure }
        ensures survey { IsSurvey self.now.structure self.now }
        ensures free { length (frees_of self.now.structure.bodies) ≤ most_free }
    {
        self.model.sound();
    }

    /// The number of free blocks: of bodies that aren't fixed. At most `MOST_FREE`.
    pub fn free_count(&self) -> usize
        ensures value { result ≡ length (frees_of self.now.structure.bodies) }
        ensures few { result ≤ most_free }
    {
        let mut count = 0;
        for i in 0..self.model.bodies() {
            if !self.model.body(i).fixed {
                count += 1;
            }
        }
        count
    }

    /// The number in the model of free block `b`.
    pub fn free(&self, b: usize) -> usize
        requires { b < length (frees_of self.now.structure.bodies) }
        ensures number { result ≡ slice_index (frees_of self.now.structure.bodies) b }
        ensures body { result < length self.now.structure.bodies }
        ensures free { (body_of self.now.structure result).fixed ≡ false }
        ensures back { frees_before self.now.structure.bodies result ≡ b }
    {
        let mut left = b;
        for i in 0..self.model.bodies() {
            if !self.model.body(i).fixed {
                if left == 0 {
                    return i;
                }
                left -= 1;
            }
        }
        unreachable!()
    }

    /// The number among the free blocks of body `i`, which isn't fixed.
    pub fn free_number(&self, i: usize) -> usize
        requires is_body { i < length self.now.structure.bodies }
        requires free { (body_of self.now.structure i).fixed ≡ false }
        ensures value { result ≡ frees_before self.now.structure.bodies i }
        ensures within { result < length (frees_of self.now.structure.bodies) }
        ensures back { free_of self.now.structure.bodies result ≡ i }
    {
        let mut count = 0;
        for j in 0..i {
            if !self.model.body(j).fixed {
                count += 1;
            }
        }
        count
    }
}
