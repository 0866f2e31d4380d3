//! The tests of a motion at the bearings.

ghost use Rattle.std.specs.Prelude.{◌≡◌, ◌<◌, length, Ok, slice_index};
ghost use Rattle.stack_algebra.specs.Steps.{steps};
ghost use Rattle.stack_contact.specs.FreeBlocks.{frees_of};
ghost use Rattle.stack_certificate.specs.Certificate.{motion_view};
ghost use Rattle.stack_checker.specs.WrittenTests.{stopped_gap};
ghost use Rattle.stack_checker.specs.WrittenMotions.{written_resistance, resistance_at, written_motion};

use crate::stop::{Stop, place};
use crate::types::{CheckAt, Reason};
use stack_certificate::Motion;
use stack_contact::{Bearing, Survey};
use stack_equilibrium::{Gap, VelocityWide, opening};
use stack_whole::{Whole, unless};

/// How bearing `k` opens and slides, or its place where a velocity is too wide.
fn placed_gap(k: usize, made: Result<(i128, i128), VelocityWide>) -> Result<Gap, Stop>
    ensures { result ≡ stopped_gap k made }
{
    match made {
        Ok((opening, slide)) => Ok(Gap {
            opening: Whole { value: opening },
            slide: Whole { value: slide },
        }),
        Err(VelocityWide) => Err(Stop::TooWide(CheckAt::Resisted { k })),
    }
}

// Why a motion that passes bounds every factor: a force within its cone has a >= 0 and q*|b| <= p*a, so its work
// a*opening + b*slide on this motion isn't negative where p*|slide| <= q*opening. Balanced forces do no work in all,
// so scale times the dead power and factor times the live power are at most 0 together, for each factor that is
// carried. That is the kinematic theorem (`certificate_laws` of stack_statics).

/// Bearing `k`, with the coefficient `p` over `q`, opens at least as much as its slide asks for.
#[tactic(auto, unfolding(crate::specs::WrittenMotions::written_resistance))]
fn check_resistance(k: usize, p: Whole, q: Whole, gap: Gap) -> Result<(), Stop>
    ensures { result ≡ written_resistance k p q gap }
{
    let opens = place(q.product(gap.opening), CheckAt::Resisted { k })?;
    let size = place(gap.slide.size(), CheckAt::Resisted { k })?;
    let slides = place(p.product(size), CheckAt::Resisted { k })?;
    unless(
        slides.value <= opens.value,
        Stop::Rejected(Reason::Resisted { k }),
    )
}

#[tactic(auto, unfolding(crate::specs::WrittenMotions::resistance_at))]
fn check_bearing(s: &Survey, motion: &Motion, k: usize, z: Bearing) -> Result<(), Stop>
    requires bearing { k < length s.now.bearings }
    requires count { length (motion_view motion.now) ≡ length (frees_of s.now.structure.bodies) }
    ensures { result ≡ resistance_at s.now (motion_view motion.now) k tt z }
{
    let gap = placed_gap(k, opening(s, motion, k))?;
    check_resistance(k, Whole::widened(z.cone.p), Whole::widened(z.cone.q), gap)
}

/// Each bearing opens at least as much as its slide asks for, in order.
fn check_bearings(s: &Survey, motion: &Motion) -> Result<(), Stop>
    requires { length (motion_view motion.now) ≡ length (frees_of s.now.structure.bodies) }
    ensures { result ≡ steps (resistance_at s.now (motion_view motion.now)) 0 tt s.now.bearings }
{
    for (k, bearing) in s.bearings().iter().enumerate() {
        check_bearing(s, motion, k, *bearing)?;
    }
    Ok(())
}

/// A move for each free block, and no bearing that resists.
#[tactic(auto, unfolding(crate::specs::WrittenMotions::written_motion))]
pub fn check_motion(s: &Survey, motion: &Motion) -> Result<(), Stop>
    ensures written { result ≡ written_motion s.now (motion_view motion.now) }
    ensures counted { result ≡ Ok tt → length (motion_view motion.now) ≡ length (frees_of s.now.structure.bodies) }
{
    unless(
        motion.moves.len() == s.free_count(),
        Stop::Rejected(Reason::Count),
    )?;
    check_bearings(s, motion)
}
