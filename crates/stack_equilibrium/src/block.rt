//! A free block and what acts on it.

ghost use Rattle.std.specs.Prelude.{◌≡◌, ◌<◌, ◌-ℤ◌, length};
ghost use Rattle.stack_whole.specs.Whole.{whole};
ghost use Rattle.stack_equilibrium.specs.WrittenSums.{push_at, lever_at, axis_part};

use crate::force::step;
use crate::types::{Axis, Wrench};
use stack_contact::Bearing;
use stack_polygon::Point;
use stack_whole::Whole;

/// The force of a bearing on its second body: `a` along the normal, `b` along the tangent.
#[derive(Clone, Copy, Debug, PartialEq, Eq)]
pub struct Push {
    pub a: Whole,
    pub b: Whole,
}

/// A bearing as a block meets it: its tangent, and its point minus the block's first stored corner, which is the arm of
/// a force there.
#[derive(Clone, Copy)]
pub struct Lever {
    pub tx: Whole,
    pub ty: Whole,
    pub lx: Whole,
    pub ly: Whole,
}

/// A free block: its number among the bodies, its first stored corner, and its dead and its live loads.
#[derive(Clone, Copy, Debug, PartialEq, Eq)]
pub struct Block {
    pub body: usize,
    pub corner: Point,
    pub dead: Wrench,
    pub live: Wrench,
}

/// The number of a wrench along an axis.
pub fn number_along(axis: Axis, wrench: Wrench) -> Whole
    ensures { result ≡ whole (axis_part axis wrench) }
{
    match axis {
        Axis::X => Whole { value: wrench.fx },
        Axis::Y => Whole { value: wrench.fy },
        Axis::M => Whole { value: wrench.m },
    }
}

/// The lever of a bearing at a block with this first stored corner.
pub fn lever_of(corner: Point, bearing: Bearing) -> Lever
    ensures { result ≡ lever_at corner bearing }
{
    Lever {
        tx: Whole::widened(bearing.frame.tx),
        ty: Whole::widened(bearing.frame.ty),
        lx: step(bearing.at.x, corner.x),
        ly: step(bearing.at.y, corner.y),
    }
}

/// The parts of bearing `k`.
pub fn push_of(parts: &[(i128, i128)], k: usize) -> Push
    requires { k < length parts.now }
    ensures { result ≡ push_at parts.now k }
{
    let (a, b) = parts[k];
    Push {
        a: Whole { value: a },
        b: Whole { value: b },
    }
}
