//! The survey of a stage.

ghost use Rattle.std.specs.Prelude.{◌≡◌, ◌<◌, ◌≤◌, length, IfOk};
ghost use Rattle.stack_model.specs.ModelView.{model_view};
ghost use Rattle.stack_model.specs.Keeping.{AreFlags};
ghost use Rattle.stack_stages.specs.Stage.{is_fixed_or_among as is_fixed_or_among_of, surveyed_stage};

use stack_contact::Survey;
use stack_model::Model;
use stack_part::survey_part;
use std::alloc::{AllocError, Global};

/// Whether body `i` is fixed, or one of these.
fn is_fixed_or_among(model: &Model, first: &[usize], i: usize) -> bool
    requires { i < length (model_view model.now).bodies }
    ensures { result ≡ is_fixed_or_among_of (model_view model.now) first.now i }
{
    if model.body(i).fixed {
        return true;
    }
    first.contains(&i)
}

/// For each body whether it is fixed, or one of these.
fn built(alloc: Global, model: &Model, first: &[usize]) -> Result<Vec<bool>, AllocError>
    ensures { IfOk result (λ v. AreFlags (length (model_view model.now).bodies)
        (is_fixed_or_among_of (model_view model.now) first.now) v.items) }
{
    let mut flags = Vec::new(alloc);
    for i in 0..model.bodies() {
        flags.push(is_fixed_or_among(model, first, i))?;
    }
    Ok(flags)
}

/// The survey of stage `k` of an order, from `read_order`: of all fixed bodies and the first `k` blocks of the order,
/// in the order of the model, with the loads on them, all materials, all joints and the sway. Its bearings and its
/// touches are those of the whole whose bodies are both built. `AllocError` if memory ran out.
pub fn stage_of(alloc: Global, s: &Survey, order: &[usize], k: usize) -> Result<Survey, AllocError>
    requires { k ≤ length order.now }
    ensures { IfOk result (λ r. r ≡ surveyed_stage s.now order.now k) }
{
    let keeps = built(alloc, s.model(), &order[..k])?;
    survey_part(alloc, s, keeps.as_slice())
}
