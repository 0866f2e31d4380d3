//! What a pivot makes of the right side of a row and of its denominator.

ghost use Rattle.std.specs.Prelude.{◌≡◌, pos, ◌*ℤ◌, ◌-ℤ◌, ◌<ℤ◌, IfSome};
ghost use Rattle.stack_rows.specs.RowForm.{IsQuotient};

use crate::divider::Divider;
use crate::ways::{BroadStep, SmallStep, Way};
use crate::words::product;
use num_traits::CheckedSub;
use stack_rational::{Exact, Frac, divisor_of};

/// The step of one number, divided.
pub fn number_after(number: i128, other: i128, s: &BroadStep, by: i128) -> Option<i128>
    ensures { IfSome result (λ r. IsQuotient by s.now.factors.times s.now.factors.less number other r) }
{
    if by == s.divider.by {
        s.quotient(number, other)
    } else {
        BroadStep::of(s.factors, by).quotient(number, other)
    }
}

/// A step of small numbers of the right side, which may be great.
pub fn right_after(number: i128, other: i128, step: &SmallStep) -> Option<i128>
    ensures { IfSome result (λ r. r ≡ number *ℤ step.now.times -ℤ other *ℤ step.now.less) }
{
    let left = product(number, step.times)?;
    let right = product(other, step.less)?;
    CheckedSub::checked_sub(&left, &right)
}

/// The denominator of a row that is divided.
pub fn under_of(over: i128, by: i128) -> Option<i128>
    ensures { IfSome result (λ r. r *ℤ by ≡ over) }
{
    if by == 1 {
        Some(over)
    } else {
        Divider::of(by).exact(over)
    }
}

/// A denominator that is raised, by what, and how often another one goes into it.
#[derive(Clone, Copy)]
pub struct Raised {
    pub under: i128,
    pub more: i128,
    pub part: i128,
}

/// A multiple of a denominator and of that of a cell, likely the least. Gives up where it isn't positive or doesn't
/// fit.
pub fn raise(under: i128, right: Frac<i128>) -> Option<Raised>
    ensures positive { IfSome result (λ r. pos 0 <ℤ r.under) }
    ensures under { IfSome result (λ r. r.under ≡ under *ℤ r.more) }
    ensures part { IfSome result (λ r. r.part *ℤ pos right.den ≡ r.under) }
{
    let own = right.parts().1;
    let common = divisor_of(under.unsigned_abs(), own.unsigned_abs());
    let more = Divider::of(common.cast_signed()).exact(own)?;
    let under = under.checked_mul(more)?;
    if under <= 0 {
        return None;
    }
    let part = Divider::of(own).exact(under)?;
    Some(Raised { under, more, part })
}
