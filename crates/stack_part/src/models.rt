//! The model of a part of a structure.

ghost use Rattle.std.specs.Prelude.{◌≡◌, length, IfOk};
ghost use Rattle.stack_model.specs.ModelView.{model_view};
ghost use Rattle.stack_model.specs.Keeping.{flag_at};
ghost use Rattle.stack_model.specs.Part.{part_of};

use stack_model::Model;
use std::alloc::{AllocError, Global};

/// The model of the bodies that are kept, in their order, with the loads on them, and with all materials, all joints
/// and the sway. `keeps` says of each body whether it is kept. `AllocError` if memory ran out.
pub fn part(alloc: Global, model: &Model, keeps: &[bool]) -> Result<Model, AllocError>
    requires { length keeps.now ≡ length (model_view model.now).bodies }
    ensures { IfOk result (λ p. model_view p ≡ part_of (flag_at keeps.now) (model_view model.now)) }
{
    model.part(alloc, keeps)
}
