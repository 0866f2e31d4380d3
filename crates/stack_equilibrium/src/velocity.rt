//! Velocities at a bearing.

ghost use Rattle.std.specs.Prelude.{◌≡◌};
ghost use Rattle.stack_whole.specs.Whole.{whole};
ghost use Rattle.stack_equilibrium.specs.WrittenVelocities.{written_velocity, written_difference, written_normal};
ghost use Rattle.stack_equilibrium.specs.WrittenVelocities.{written_tangential, gap_along, written_gap, at_rest};

use crate::block::Lever;
use stack_contact::Bearing;
use stack_whole::{Whole, Wide};

/// How a free block moves: the velocity of its first stored corner to the right and upwards, and its turning
/// rate, counter-clockwise.
#[derive(Clone, Copy)]
pub struct BlockMove {
    pub u: Whole,
    pub v: Whole,
    pub r: Whole,
}

/// A velocity, or the difference of two: to the right and upwards.
#[derive(Clone, Copy)]
pub struct Velocity {
    pub x: Whole,
    pub y: Whole,
}

/// How a bearing opens and slides, as dot products with its normal and with its tangent.
#[derive(Clone, Copy)]
pub struct Gap {
    pub opening: Whole,
    pub slide: Whole,
}

/// The velocity of a fixed body.
pub fn rest() -> Velocity
    ensures { result ≡ at_rest }
{
    Velocity {
        x: Whole { value: 0 },
        y: Whole { value: 0 },
    }
}

/// The velocity of a block at a bearing.
#[tactic(auto, unfolding(crate::specs::WrittenVelocities::written_velocity))]
pub fn velocity_of(at: Lever, block: BlockMove) -> Result<Velocity, Wide>
    ensures { result ≡ written_velocity block at }
{
    let back = block.r.product(at.ly)?;
    let x = block.u.difference(back)?;
    let up = block.r.product(at.lx)?;
    let y = block.v.sum(up)?;
    Ok(Velocity { x, y })
}

/// The later body's velocity minus the earlier's.
#[tactic(auto, unfolding(crate::specs::WrittenVelocities::written_difference))]
pub fn difference(later: Velocity, earlier: Velocity) -> Result<Velocity, Wide>
    ensures { result ≡ written_difference later earlier }
{
    let x = later.x.difference(earlier.x)?;
    let y = later.y.difference(earlier.y)?;
    Ok(Velocity { x, y })
}

#[tactic(auto, unfolding(crate::specs::WrittenVelocities::written_normal))]
fn along_normal(tx: Whole, ty: Whole, difference: Velocity) -> Result<Whole, Wide>
    ensures { result ≡ written_normal tx ty difference }
{
    let rises = tx.product(difference.y)?;
    let runs = ty.product(difference.x)?;
    rises.difference(runs)
}

#[tactic(auto, unfolding(crate::specs::WrittenVelocities::written_tangential))]
fn along_tangent(tx: Whole, ty: Whole, difference: Velocity) -> Result<Whole, Wide>
    ensures { result ≡ written_tangential tx ty difference }
{
    let runs = tx.product(difference.x)?;
    let rises = ty.product(difference.y)?;
    runs.sum(rises)
}

/// The opening and the slide along this tangent, of a difference of velocities.
fn gap_along(tx: Whole, ty: Whole, difference: Velocity) -> Result<Gap, Wide>
    ensures { result ≡ gap_along tx ty difference }
{
    let opening = along_normal(tx, ty, difference)?;
    let slide = along_tangent(tx, ty, difference)?;
    Ok(Gap { opening, slide })
}

/// The opening and the slide of a bearing with this difference of velocities.
#[tactic(auto, unfolding(crate::specs::WrittenVelocities::written_gap))]
pub fn gap_of(bearing: Bearing, difference: Velocity) -> Result<Gap, Wide>
    ensures { result ≡ written_gap bearing difference }
{
    let tx = Whole::widened(bearing.frame.tx);
    let ty = Whole::widened(bearing.frame.ty);
    gap_along(tx, ty, difference)
}
