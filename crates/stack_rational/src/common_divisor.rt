//! The greatest common divisor.

ghost use Rattle.std.specs.Prelude.{◌≡◌, pos, ◌≤ℤ◌, unsigned_abs};
ghost use Rattle.std.specs.Int.{IsGcd};
ghost use Rattle.stack_rational.specs.Stored.{Within};

use crate::halves::divisor_of;
use crate::integer::{Integer, as_broad};

/// The greatest common divisor of two numbers, of either sign.
pub fn divisor<T: Integer>(a: T, b: T) -> T
    requires a { Within T.MAX (T.value a) }
    requires b { Within T.MAX (T.value b) }
    ensures size { Within T.MAX (T.value result) }
    ensures gcd { IsGcd (unsigned_abs (T.value a)) (unsigned_abs (T.value b)) (unsigned_abs (T.value result)) }
    ensures positive { pos 0 ≤ℤ T.value result }
{
    if b.is_one() {
        return b;
    }
    if a.is_one() {
        return a;
    }
    let g = divisor_of(as_broad(a).unsigned_abs(), as_broad(b).unsigned_abs());
    match T::from_u128(g) {
        Some(d) => d,
        None => a,
    }
}
