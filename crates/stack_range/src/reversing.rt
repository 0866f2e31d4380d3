//! The survey of the reversed model.

ghost use Rattle.std.specs.Prelude.{◌≡◌, IfOk, map, pos, negsuc};
ghost use Rattle.stack_algebra.specs.IntegerOrder.{◌≼◌};
ghost use Rattle.stack_model.specs.ModelView.{model_view};
ghost use Rattle.stack_model.specs.Structure.{IsSway};
ghost use Rattle.stack_range.specs.Reversed.{reversed_load as reversed_load_of, reversed_sway as reversed_sway_of};
ghost use Rattle.stack_range.specs.Reversed.{reversed_structure, reversed_survey};

use stack_contact::{Survey, survey_again};
use stack_model::{Load, Model};
use std::alloc::{AllocError, Global};

/// A live load with the opposite force; a dead one as it is.
fn reversed_load(load: Load) -> Load
    requires least_x { negsuc 999999999 ≼ load.fx }
    requires least_y { negsuc 999999999 ≼ load.fy }
    ensures { result ≡ reversed_load_of load }
{
    if load.live {
        Load {
            body: load.body,
            live: true,
            at: load.at,
            fx: -load.fx,
            fy: -load.fy,
        }
    } else {
        load
    }
}

/// The loads of a model, the live ones reversed.
fn reversed_loads(alloc: Global, model: &Model) -> Result<Vec<Load>, AllocError>
    ensures { IfOk result (λ v. v.items ≡ map reversed_load_of (model_view model.now).loads) }
{
    let mut list = Vec::new(alloc);
    for i in 0..model.loads() {
        list.push(reversed_load(model.load(i)))?;
    }
    Ok(list)
}

/// A sway to the other side.
fn reversed_sway(sway: (i64, i64)) -> (i64, i64)
    requires { IsSway sway }
    ensures { result ≡ reversed_sway_of sway }
{
    (-sway.0, -sway.1)
}

/// The reversed model: each live load's force and the sway with the opposite sign.
fn reversed_model(alloc: Global, model: &Model) -> Result<Model, AllocError>
    ensures { IfOk result (λ m. model_view m ≡ reversed_structure (model_view model.now)) }
{
    model.sound();
    let loads = reversed_loads(alloc, model)?;
    model.with_loads(alloc, loads.as_slice(), reversed_sway(model.sway()))
}

/// The survey of the reversed model, whose bearings and touches are those of `s`. `AllocError` if memory ran out.
pub fn other_side(alloc: Global, s: &Survey) -> Result<Survey, AllocError>
    ensures { IfOk result (λ r. r ≡ reversed_survey s.now) }
{
    let model = reversed_model(alloc, s.model())?;
    survey_again(alloc, s, model)
}
