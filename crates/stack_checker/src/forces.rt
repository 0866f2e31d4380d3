//! The tests of a list of forces.

ghost use Rattle.std.specs.Prelude.{◌≡◌};
ghost use Rattle.stack_certificate.specs.Certificate.{forces_view};
ghost use Rattle.stack_checker.specs.WrittenForces.{written_forces};

use crate::balance::check_blocks;
use crate::cones::check_cones;
use crate::sign::Signs;
use crate::stop::Stop;
use crate::types::Reason;
use stack_certificate::Forces;
use stack_contact::Survey;
use stack_whole::{Whole, unless};

/// A part for each bearing, a scale and a factor with these signs, forces that push within their cones of
/// friction, and free blocks in balance.
#[tactic(auto, unfolding(crate::specs::WrittenForces::written_forces))]
pub fn check_forces(s: &Survey, signs: Signs, forces: &Forces) -> Result<(), Stop>
    ensures { result ≡ written_forces signs s.now (forces_view forces.now) }
{
    let bearings = s.bearings();
    unless(
        forces.parts.len() == bearings.len(),
        Stop::Rejected(Reason::Count),
    )?;
    unless(
        signs.scale.is_of(Whole::of(forces.scale)),
        Stop::Rejected(Reason::Scale),
    )?;
    unless(
        signs.factor.is_of(Whole::of(forces.factor)),
        Stop::Rejected(Reason::Factor),
    )?;
    check_cones(bearings, forces.parts.as_slice())?;
    check_blocks(s, forces)
}
