//! The tests of a motion with its powers.

ghost use Rattle.std.specs.Prelude.{◌≡◌, length};
ghost use Rattle.stack_contact.specs.FreeBlocks.{frees_of};
ghost use Rattle.stack_certificate.specs.Certificate.{forces_view, motion_view};
ghost use Rattle.stack_checker.specs.WrittenTests.{power_or_stop};
ghost use Rattle.stack_checker.specs.WrittenMotions.{written_collapse, written_powers, written_meeting, written_bound};

use crate::motions::check_motion;
use crate::sign::WantedSign;
use crate::stop::{Stop, place};
use crate::types::{CheckAt, Reason};
use stack_certificate::{Forces, Motion};
use stack_contact::Survey;
use stack_equilibrium::{PowerWide, Question, power};
use stack_whole::{Whole, unless};

/// The work of the live and of the dead loads on a motion, in sixths.
#[derive(Clone, Copy)]
pub struct Powers {
    pub live: Whole,
    pub dead: Whole,
}

/// A power, or its place where it is too wide.
fn placed_power(made: Result<i128, PowerWide>) -> Result<Whole, Stop>
    ensures { result ≡ power_or_stop made }
{
    match made {
        Ok(value) => Ok(Whole { value }),
        Err(PowerWide) => Err(Stop::TooWide(CheckAt::Work)),
    }
}

/// A motion that no bearing resists, on which the dead loads gain power.
#[tactic(auto, unfolding(crate::specs::WrittenMotions::written_collapse))]
pub fn check_collapse(s: &Survey, motion: &Motion) -> Result<(), Stop>
    ensures { result ≡ written_collapse s.now (motion_view motion.now) }
{
    check_motion(s, motion)?;
    let dead = placed_power(power(s, motion, Question::Dead))?;
    unless(
        WantedSign::Positive.is_of(dead),
        Stop::Rejected(Reason::NoWork),
    )
}

#[tactic(auto, unfolding(crate::specs::WrittenMotions::written_powers))]
fn both_powers(s: &Survey, motion: &Motion) -> Result<Powers, Stop>
    requires { length (motion_view motion.now) ≡ length (frees_of s.now.structure.bodies) }
    ensures { result ≡ written_powers s.now (motion_view motion.now) }
{
    let live = placed_power(power(s, motion, Question::Live))?;
    let dead = placed_power(power(s, motion, Question::Dead))?;
    Ok(Powers { live, dead })
}

/// The factor times the live power and the scale times the dead power add up to 0.
#[tactic(auto, unfolding(crate::specs::WrittenMotions::written_meeting))]
fn check_meeting(scale: Whole, factor: Whole, powers: Powers) -> Result<(), Stop>
    ensures { result ≡ written_meeting scale factor powers }
{
    let driven = place(factor.product(powers.live), CheckAt::Apart)?;
    let standing = place(scale.product(powers.dead), CheckAt::Apart)?;
    let total = place(driven.sum(standing), CheckAt::Apart)?;
    unless(WantedSign::Zero.is_of(total), Stop::Rejected(Reason::Apart))
}

/// A motion that no bearing resists, on which the live loads gain power, and which forbids a greater factor
/// than that of the forces.
#[tactic(auto, unfolding(crate::specs::WrittenMotions::written_bound))]
pub fn check_bound(s: &Survey, forces: &Forces, motion: &Motion) -> Result<(), Stop>
    ensures { result ≡ written_bound s.now (forces_view forces.now) (motion_view motion.now) }
{
    check_motion(s, motion)?;
    let powers = both_powers(s, motion)?;
    unless(
        WantedSign::Positive.is_of(powers.live),
        Stop::Rejected(Reason::NoWork),
    )?;
    check_meeting(Whole::of(forces.scale), Whole::of(forces.factor), powers)
}
