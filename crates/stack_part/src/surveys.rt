//! The survey of a part of a structure.

ghost use Rattle.std.specs.Prelude.{◌≡◌, length, IfOk};
ghost use Rattle.stack_model.specs.Keeping.{flag_at};
ghost use Rattle.stack_part.specs.Part.{surveyed_part};

use crate::contacts::{kept_bearings, kept_touches};
use crate::models::part;
use stack_contact::{Survey, survey_of};
use std::alloc::{AllocError, Global};

/// The survey of the bodies that are kept, as `part` has them: its bearings and its touches are those of the whole
/// whose bodies are both kept, in their order. `keeps` says of each body whether it is kept. `AllocError` if memory ran
/// out.
pub fn survey_part(alloc: Global, s: &Survey, keeps: &[bool]) -> Result<Survey, AllocError>
    requires { length keeps.now ≡ length s.now.structure.bodies }
    ensures { IfOk result (λ p. p ≡ surveyed_part (flag_at keeps.now) s.now) }
{
    let model = part(alloc, s.model(), keeps)?;
    let bearings = kept_bearings(alloc, s.bearings(), keeps)?;
    let touches = kept_touches(alloc, s.touches(), keeps)?;
    Ok(survey_of(model, bearings, touches))
}
