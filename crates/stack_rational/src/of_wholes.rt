//! Fractions of 128 bits out of whole numbers that fit: no call is refused.

ghost use Rattle.std.specs.Prelude.{◌≡◌, pos};
ghost use Rattle.stack_algebra.specs.IntegerOrder.{◌≺◌};
ghost use Rattle.stack_algebra.proofs.Fractions.{of};
ghost use Rattle.stack_algebra.proofs.Over.{over};
ghost use Rattle.stack_whole.specs.Whole.{IsFitting};

use crate::exact::Exact;
use crate::frac::Frac;

/// A whole number that fits, as a fraction.
pub fn whole(n: i128) -> Frac<i128>
    requires { IsFitting n }
    ensures { result ≡ of n }
{
    match Exact::from_whole(n) {
        Ok(fraction) => fraction,
        Err(_) => unreachable!(),
    }
}

/// `n` over `d`, which is positive, where both fit: in lowest terms its parts are no greater.
pub fn over(n: i128, d: i128) -> Frac<i128>
    requires numerator { IsFitting n }
    requires denominator { IsFitting d }
    requires positive { pos 0 ≺ d }
    ensures { result ≡ over n d }
{
    match Exact::quotient(whole(n), whole(d)) {
        Ok(quotient) => quotient,
        Err(_) => unreachable!(),
    }
}
