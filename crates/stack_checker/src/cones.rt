//! The tests of what each bearing bears.

ghost use Rattle.std.specs.Prelude.{◌≡◌, ◌<◌, ◌≤◌, length};
ghost use Rattle.stack_algebra.specs.Steps.{steps};
ghost use Rattle.stack_whole.specs.Whole.{whole};
ghost use Rattle.stack_checker.specs.WrittenForces.{written_cone, cone_at};

use crate::stop::Stop;
use crate::types::{CheckAt, Reason};
use stack_contact::Bearing;
use stack_equilibrium::{Push, push_of};
use stack_frame::Cone;
use stack_whole::{Wide, unless};

/// Bearing `k` pushes, and stays within its cone of friction.
fn check_cone(k: usize, cone: Cone, push: Push) -> Result<(), Stop>
    ensures { result ≡ written_cone k (whole cone.p) (whole cone.q) push }
{
    unless(0 <= push.a.value, Stop::Rejected(Reason::Push { k }))?;
    match cone.admits(push.a, push.b) {
        Ok(within) => unless(within, Stop::Rejected(Reason::Cone { k })),
        Err(Wide) => Err(Stop::TooWide(CheckAt::Cone { k })),
    }
}

fn check_bearing(k: usize, z: Bearing, parts: &[(i128, i128)]) -> Result<(), Stop>
    requires { k < length parts.now }
    ensures { result ≡ cone_at parts.now k tt z }
{
    check_cone(k, z.cone, push_of(parts, k))
}

/// Each bearing pushes, and stays within its cone of friction, in order.
pub fn check_cones(bearings: &[Bearing], parts: &[(i128, i128)]) -> Result<(), Stop>
    requires { length bearings.now ≤ length parts.now }
    ensures { result ≡ steps (cone_at parts.now) 0 tt bearings.now }
{
    for (k, bearing) in bearings.iter().enumerate() {
        check_bearing(k, *bearing, parts)?;
    }
    Ok(())
}
