//! Forces at the ends of arms.

ghost use Rattle.std.specs.Prelude.{◌≡◌, ◌*ℤ◌, ◌-ℤ◌};
ghost use Rattle.stack_polygon.specs.Sizes.{IsStep};
ghost use Rattle.stack_polygon.specs.Limits.{IsInRange, IsNear};
ghost use Rattle.stack_whole.specs.Whole.{whole};
ghost use Rattle.stack_equilibrium.specs.LoadSizes.{IsForce, HasForceLimits, AreSteps, IsTurn, IsMoment, arm_between};
ghost use Rattle.stack_equilibrium.specs.LoadSizes.{moment_with};

use stack_polygon::Point;
use stack_whole::Whole;

/// A force, to the right and upwards.
#[derive(Clone, Copy, Debug, PartialEq, Eq)]
pub struct Force {
    pub x: Whole,
    pub y: Whole,
}

/// The way from a corner to a point.
#[derive(Clone, Copy)]
pub struct Arm {
    pub lx: Whole,
    pub ly: Whole,
}

/// The way from one coordinate to another.
pub fn step(value: i64, from: i64) -> Whole
    ensures value { result ≡ whole (value -ℤ from) }
    ensures size { IsNear value → IsNear from → IsStep result.value }
{
    Whole {
        value: value as i128 - from as i128,
    }
}

/// The arm of a point, from a corner.
pub fn arm_of(corner: Point, at: Point) -> Arm
    requires corner { IsInRange corner }
    requires at { IsInRange at }
    ensures value { result ≡ arm_between corner at }
    ensures size { AreSteps result }
{
    Arm {
        lx: step(at.x, corner.x),
        ly: step(at.y, corner.y),
    }
}

fn turn(arm: Whole, force: Whole) -> Whole
    requires arm { IsStep arm.value }
    requires force { IsForce force.value }
    ensures value { result ≡ whole (arm.value *ℤ force.value) }
    ensures size { IsTurn result.value }
{
    Whole {
        value: arm.value * force.value,
    }
}

fn less(turn: Whole, back: Whole) -> Whole
    requires turn { IsTurn turn.value }
    requires back { IsTurn back.value }
    ensures value { result ≡ whole (turn.value -ℤ back.value) }
    ensures size { IsMoment result.value }
{
    Whole {
        value: turn.value - back.value,
    }
}

/// The moment of a force, counter-clockwise.
pub fn moment(arm: Arm, force: Force) -> Whole
    requires arm { AreSteps arm }
    requires force { HasForceLimits force }
    ensures value { result ≡ whole (moment_with arm force) }
    ensures size { IsMoment result.value }
{
    less(turn(arm.lx, force.y), turn(arm.ly, force.x))
}
