//! The tangent of a joint and its normal.

ghost use Rattle.std.specs.Prelude.{◌≡◌, ◌≢◌, ◌⊎◌, ◌<◌, ◌≤◌, ◌*ℤ◌, pos, unsigned_abs};
ghost use Prim.Native.Nat.{◌∣◌};
ghost use Rattle.stack_polygon.specs.Sizes.{IsStep};
ghost use Rattle.stack_frame.specs.Directions.{IsFrameOf, IsGreatestDivisor, IsQuarterTurn};

use crate::divisor::common_divisor;
use std::marker::Model;

/// The direction of a joint, its tangent in lowest terms. Its normal is `(-ty, tx)`.
#[derive(Clone, Copy, Debug, PartialEq, Eq)]
pub struct Frame {
    /// To the right, at most 2,000,000 in size.
    pub tx: i64,
    /// Upwards, at most 2,000,000 in size.
    pub ty: i64,
}

impl Model for Frame {
    ghost use Rattle.stack_frame.specs.Tangents.{Tangent};

    ghost Value = { Tangent };

    ghost use Rattle.stack_frame.specs.Directions.{IsFrame};

    ghost view = { λ f. record { tx = f.tx; ty = f.ty } };

    ghost invariant = { λ f. IsFrame (record { tx = f.tx; ty = f.ty }) };

    ghost inverse = { λ t. record { tx = t.tx; ty = t.ty } };
}

impl Frame {
    /// The normal: the tangent turned a quarter round to its left, with the tangent's length.
    pub fn normal(self) -> (i64, i64)
        ensures { IsQuarterTurn self result }
    {
        (-self.ty, self.tx)
    }
}

/// The greatest number that divides both parts of a direction.
fn divisor_of(dx: i64, dy: i64) -> u64
    requires dx { IsStep dx }
    requires dy { IsStep dy }
    requires some { (dx ≢ pos 0) ⊎ (dy ≢ pos 0) }
    ensures { IsGreatestDivisor dx dy result }
{
    common_divisor(dx.unsigned_abs(), dy.unsigned_abs())
}

/// A whole number divided by one of its divisors.
fn quotient(z: i64, divisor: u64) -> i64
    requires size { IsStep z }
    requires positive { 0 < divisor }
    requires limit { divisor ≤ 2000000 }
    requires divides { divisor ∣ unsigned_abs z }
    ensures { z ≡ pos divisor *ℤ result }
{
    z / divisor as i64
}

/// The direction `(dx, dy)` in lowest terms, with its sense. It isn't `(0, 0)`, and each part is at most 2,000,000
/// in size.
pub fn frame_of(dx: i64, dy: i64) -> Frame
    requires dx { IsStep dx }
    requires dy { IsStep dy }
    requires some { (dx ≢ pos 0) ⊎ (dy ≢ pos 0) }
    ensures direction { IsFrameOf dx dy result }
    ensures tx { IsStep result.tx }
    ensures ty { IsStep result.ty }
{
    let divisor = divisor_of(dx, dy);
    Frame {
        tx: quotient(dx, divisor),
        ty: quotient(dy, divisor),
    }
}
