//! The sums of a block, in the written order.

ghost use Rattle.std.specs.Prelude.{◌≡◌, ◌≤◌, length, pos};
ghost use Rattle.stack_algebra.specs.Steps.{steps};
ghost use Rattle.stack_whole.specs.Whole.{whole};
ghost use Rattle.stack_equilibrium.specs.WrittenSums.{written_force_x, written_force_y, written_moment};
ghost use Rattle.stack_equilibrium.specs.WrittenSums.{written_bearing_force, written_force, with_bearing, bearing_at};
ghost use Rattle.stack_equilibrium.specs.WrittenSums.{written_sum, on_axis, written_sums};

use crate::block::{Block, Lever, Push, lever_of, number_along, push_of};
use crate::force::Force;
use crate::types::{Axis, SumWide, Wrench};
use stack_contact::Bearing;
use stack_whole::{Whole, Wide};

#[tactic(auto, unfolding(crate::specs::WrittenSums::written_force_x))]
fn force_x(lever: Lever, push: Push) -> Result<Whole, Wide>
    ensures { result ≡ written_force_x lever push }
{
    let along = push.b.product(lever.tx)?;
    let across = push.a.product(lever.ty)?;
    along.difference(across)
}

#[tactic(auto, unfolding(crate::specs::WrittenSums::written_force_y))]
fn force_y(lever: Lever, push: Push) -> Result<Whole, Wide>
    ensures { result ≡ written_force_y lever push }
{
    let across = push.a.product(lever.tx)?;
    let along = push.b.product(lever.ty)?;
    across.sum(along)
}

/// What a bearing exerts on its later body with this push: b*tx, a*ty and their difference, then a*tx, b*ty and their
/// sum. `Wide` exactly if one of these numbers is more than 2^127 - 1 in size.
#[tactic(auto, unfolding(crate::specs::WrittenSums::written_bearing_force))]
pub fn bearing_force(bearing: Bearing, push: Push) -> Result<Force, Wide>
    ensures { result ≡ written_bearing_force bearing push }
{
    let lever = lever_of(bearing.at, bearing);
    let x = force_x(lever, push)?;
    let y = force_y(lever, push)?;
    Ok(Force { x, y })
}

#[tactic(auto, unfolding(crate::specs::WrittenSums::written_moment))]
fn moment(lever: Lever, push: Push) -> Result<Whole, Wide>
    ensures { result ≡ written_moment lever push }
{
    let x = force_x(lever, push)?;
    let y = force_y(lever, push)?;
    let turned = lever.lx.product(y)?;
    let back = lever.ly.product(x)?;
    turned.difference(back)
}

fn force(axis: Axis, lever: Lever, push: Push) -> Result<Whole, Wide>
    ensures { result ≡ written_force axis lever push }
{
    match axis {
        Axis::X => force_x(lever, push),
        Axis::Y => force_y(lever, push),
        Axis::M => moment(lever, push),
    }
}

#[tactic(auto, unfolding(crate::specs::WrittenSums::with_bearing))]
fn add_bearing(
    axis: Axis,
    block: &Block,
    push: Push,
    so_far: Whole,
    z: &Bearing,
) -> Result<Whole, Wide>
    ensures { result ≡ with_bearing axis block.now push so_far z.now }
{
    if block.body == z.second {
        let acting = force(axis, lever_of(block.corner, *z), push)?;
        so_far.sum(acting)
    } else if block.body == z.first {
        let acting = force(axis, lever_of(block.corner, *z), push)?;
        so_far.difference(acting)
    } else {
        Ok(so_far)
    }
}

fn add_bearings(
    axis: Axis,
    block: Block,
    bearings: &[Bearing],
    parts: &[(i128, i128)],
) -> Result<Whole, Wide>
    requires { length bearings.now ≤ length parts.now }
    ensures { result ≡ steps (bearing_at axis block parts.now) 0 (whole (pos 0)) bearings.now }
{
    let mut so_far = Whole { value: 0 };
    for (k, bearing) in bearings.iter().enumerate() {
        so_far = add_bearing(axis, &block, push_of(parts, k), so_far, bearing)?;
    }
    Ok(so_far)
}

/// The sum of a block along an axis.
#[tactic(auto, unfolding(crate::specs::WrittenSums::written_sum))]
fn sum(
    axis: Axis,
    block: Block,
    scale: Whole,
    factor: Whole,
    bearings: &[Bearing],
    parts: &[(i128, i128)],
) -> Result<Whole, Wide>
    requires { length bearings.now ≤ length parts.now }
    ensures { result ≡ written_sum axis block scale factor bearings.now parts.now }
{
    let borne = add_bearings(axis, block, bearings, parts)?;
    let weight = scale.product(number_along(axis, block.dead))?;
    let standing = borne.sum(weight)?;
    let drive = factor.product(number_along(axis, block.live))?;
    standing.sum(drive)
}

/// The sum of a block along an axis, or that axis where a number is too wide.
fn sum_along(
    axis: Axis,
    block: Block,
    scale: Whole,
    factor: Whole,
    bearings: &[Bearing],
    parts: &[(i128, i128)],
) -> Result<Whole, SumWide>
    requires { length bearings.now ≤ length parts.now }
    ensures { result ≡ on_axis axis (written_sum axis block scale factor bearings.now parts.now) }
{
    match sum(axis, block, scale, factor, bearings, parts) {
        Ok(number) => Ok(number),
        Err(Wide) => Err(SumWide { axis }),
    }
}

/// The sums of a block along x, along y and about its first stored corner.
#[tactic(auto, unfolding(crate::specs::WrittenSums::written_sums))]
pub fn sums(
    block: Block,
    scale: Whole,
    factor: Whole,
    bearings: &[Bearing],
    parts: &[(i128, i128)],
) -> Result<Wrench, SumWide>
    requires { length bearings.now ≤ length parts.now }
    ensures { result ≡ written_sums block scale factor bearings.now parts.now }
{
    let x = sum_along(Axis::X, block, scale, factor, bearings, parts)?;
    let y = sum_along(Axis::Y, block, scale, factor, bearings, parts)?;
    let m = sum_along(Axis::M, block, scale, factor, bearings, parts)?;
    Ok(Wrench {
        fx: x.value,
        fy: y.value,
        m: m.value,
    })
}
