//! The greatest common divisor, as the terms of directions and of coefficients speak of it.

ghost use Rattle.std.specs.Prelude.{◌≡◌};
ghost use Rattle.stack_algebra.specs.Gcd.{gcd};

use stack_rational::divisor_of_words;

/// The greatest number that divides both, and 0 where both are 0.
pub fn common_divisor(a: u64, b: u64) -> u64
    ensures { result ≡ gcd a b }
{
    divisor_of_words(a, b)
}
