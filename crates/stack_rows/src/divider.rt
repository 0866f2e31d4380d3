//! Exact division, by one product in place of a division.

ghost use Rattle.std.specs.Prelude.{◌≡◌, ◌*ℤ◌, IfSome};

use crate::words::{inverse, low, product_of, word};
use num_traits::CheckedMul;

/// A number to divide by, with what makes the division quick: how often 2 goes into it, and the inverse of what is left
/// of it then, modulo 2^128. No clause speaks of these two: each quotient is tested by its product.
#[derive(Clone, Copy)]
pub struct Divider {
    pub by: i128,
    pub(crate) twos: u32,
    pub(crate) inverse: i128,
}

impl Divider {
    /// Only 0 is a multiple of 0.
    pub fn of(by: i128) -> Divider
        ensures { result.by ≡ by }
    {
        let twos = by.trailing_zeros();
        Divider {
            by,
            twos,
            inverse: inverse(by.wrapping_shr(twos)),
        }
    }

    /// The quotient of words.
    fn of_words(self, n: i128) -> Option<i64>
        ensures { IfSome result (λ r. r *ℤ self.by ≡ n) }
    {
        let by = word(self.by)?;
        let quotient = low(n.wrapping_shr(self.twos)).wrapping_mul(low(self.inverse));
        if product_of(quotient, by) == n {
            Some(quotient)
        } else {
            None
        }
    }

    /// The quotient, where it is whole.
    pub fn exact(self, n: i128) -> Option<i128>
        ensures { IfSome result (λ r. r *ℤ self.by ≡ n) }
    {
        match self.of_words(n) {
            Some(quotient) => return Some(quotient as i128),
            None => {}
        }
        let quotient = n.wrapping_shr(self.twos).wrapping_mul(self.inverse);
        if CheckedMul::checked_mul(&quotient, &self.by)? == n {
            Some(quotient)
        } else {
            None
        }
    }
}
