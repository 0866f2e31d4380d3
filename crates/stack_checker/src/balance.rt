//! The balance of the free blocks.

ghost use Rattle.std.specs.Prelude.{◌≡◌, ◌<◌, length};
ghost use Rattle.stack_algebra.specs.Steps.{steps};
ghost use Rattle.stack_contact.specs.FreeBlocks.{frees_of, free_of};
ghost use Rattle.stack_certificate.specs.Certificate.{forces_view};
ghost use Rattle.stack_equilibrium.specs.WrittenSums.{axis_part};
ghost use Rattle.stack_checker.specs.declared.types.Reason.TheVariants as reasons;
ghost use Rattle.stack_checker.specs.declared.sign.WantedSign.TheVariants.{Zero};
ghost use Rattle.stack_checker.specs.Signs.{has_sign};
ghost use Rattle.stack_checker.specs.WrittenTests.{demand, sums_at};
ghost use Rattle.stack_checker.specs.WrittenForces.{written_balance, balance_at};

use crate::sign::WantedSign;
use crate::stop::Stop;
use crate::types::{CheckAt, Reason};
use stack_certificate::Forces;
use stack_contact::Survey;
use stack_equilibrium::{Axis, SumWide, Wrench, residue};
use stack_whole::{Whole, unless};

/// The three sums of free block number `b`, or their place where one is too wide.
fn placed_sums(b: usize, made: Result<Wrench, SumWide>) -> Result<Wrench, Stop>
    ensures { result ≡ sums_at b made }
{
    match made {
        Ok(wrench) => Ok(wrench),
        Err(SumWide { axis }) => Err(Stop::TooWide(CheckAt::Balance { block: b, axis })),
    }
}

/// The sum of free block number `b` along an axis is 0.
fn require_zero(b: usize, axis: Axis, sums: Wrench) -> Result<(), Stop>
    ensures { result ≡ demand (has_sign Zero (axis_part axis sums)) (reasons.Balance b axis) }
{
    let number = match axis {
        Axis::X => sums.fx,
        Axis::Y => sums.fy,
        Axis::M => sums.m,
    };
    unless(
        WantedSign::Zero.is_of(Whole::of(number)),
        Stop::Rejected(Reason::Balance { block: b, axis }),
    )
}

/// The three sums of free block number `b` are made, and each is 0.
#[tactic(auto, unfolding(crate::specs::WrittenForces::written_balance))]
fn check_balance(b: usize, made: Result<Wrench, SumWide>) -> Result<(), Stop>
    ensures { result ≡ written_balance b made }
{
    let sums = placed_sums(b, made)?;
    require_zero(b, Axis::X, sums)?;
    require_zero(b, Axis::Y, sums)?;
    require_zero(b, Axis::M, sums)
}

/// Free block number `b` of the survey is balanced.
fn check_block(s: &Survey, forces: &Forces, b: usize) -> Result<(), Stop>
    requires block { b < length (frees_of s.now.structure.bodies) }
    requires count { length (forces_view forces.now).parts ≡ length s.now.bearings }
    ensures { result ≡ balance_at s.now (forces_view forces.now) b tt (free_of s.now.structure.bodies b) }
{
    check_balance(b, residue(s, forces, b))
}

/// Each free block of the survey is balanced, in order.
pub fn check_blocks(s: &Survey, forces: &Forces) -> Result<(), Stop>
    requires { length (forces_view forces.now).parts ≡ length s.now.bearings }
    ensures { result ≡ steps (balance_at s.now (forces_view forces.now)) 0 tt (frees_of s.now.structure.bodies) }
{
    for b in 0..s.free_count() {
        check_block(s, forces, b)?;
    }
    Ok(())
}
