//! Exact numbers of one width.

use crate::frac::Frac;
use crate::integer::Integer;
use crate::of_wholes::over;
use std::cmp::Ordering;

/// An operation on exact numbers.
#[derive(Clone, Copy, Debug, PartialEq, Eq)]
pub enum Op {
    /// A whole number is taken.
    Whole,
    Sum,
    Difference,
    Product,
    Quotient,
}

/// An operation is too wide: its answer, or a number on the way to it, would be more than the greatest value.
#[derive(Clone, Copy, Debug, PartialEq, Eq)]
pub struct OpWide {
    /// The call that was refused.
    pub op: Op,
}

/// Exact numbers of one width: fractions in lowest terms whose numerator's size and denominator are at most `MAX`.
///
/// Each call gives the exact value, or is refused exactly if `is_too_wide` holds. No call takes memory.
pub trait Exact: Copy {
    ghost use Rattle.std.specs.Prelude.{◌≡◌, ◌≢◌, ℤ, pos, true, false, IfOk, IfErr};
    ghost use Rattle.stack_algebra.specs.Fraction.{Fraction};
    ghost use Rattle.stack_algebra.proofs.Fractions.{of};
    ghost use Rattle.stack_rational.specs.declared.exact.Op.TheVariants as op;
    ghost use Rattle.stack_rational.specs.TooWide.{IsWidth, fraction_fits, is_too_wide, op_value};
    ghost use Rattle.stack_algebra.specs.IntegerOrder.{signum};
    ghost use Rattle.stack_rational.specs.Order.{order_of, is_zero};

    // The value.
    ghost exact: { Self → Fraction };

    // The greatest size of a numerator, and the greatest denominator.
    ghost MAX: { ℤ };

    const MAX: i128;

    /// 0. Never refused.
    fn zero() -> Self
        ensures { exact result ≡ of (pos 0) };

    /// 1. Never refused.
    fn one() -> Self
        ensures { exact result ≡ of (pos 1) };

    /// A whole number. Refused exactly if its size is more than `MAX`.
    fn from_whole(n: i128) -> Result<Self, OpWide>
        ensures ok { IfOk result (λ r. exact r ≡ of n) }
        ensures fits { IfOk result (λ r. is_too_wide MAX op.Whole (of n) (of n) ≡ false) }
        ensures wide { IfErr result (λ e. is_too_wide MAX op.Whole (of n) (of n) ≡ true) }
        ensures named { IfErr result (λ e. e.op ≡ op.Whole) };

    /// The sum. Refused exactly if, over the least common denominator, that denominator, either term or the result,
    /// before it is reduced, is more than `MAX`.
    fn sum(self, other: Self) -> Result<Self, OpWide>
        ensures ok { IfOk result (λ r. exact r ≡ op_value op.Sum (exact self) (exact other)) }
        ensures fits { IfOk result (λ r. is_too_wide MAX op.Sum (exact self) (exact other) ≡ false) }
        ensures wide { IfErr result (λ e. is_too_wide MAX op.Sum (exact self) (exact other) ≡ true) }
        ensures named { IfErr result (λ e. e.op ≡ op.Sum) };

    /// The difference. Refused as the sum with the other sign.
    fn difference(self, other: Self) -> Result<Self, OpWide>
        ensures ok { IfOk result (λ r. exact r ≡ op_value op.Difference (exact self) (exact other)) }
        ensures fits { IfOk result (λ r. is_too_wide MAX op.Difference (exact self) (exact other) ≡ false) }
        ensures wide { IfErr result (λ e. is_too_wide MAX op.Difference (exact self) (exact other) ≡ true) }
        ensures named { IfErr result (λ e. e.op ≡ op.Difference) };

    /// The product. Refused exactly if its lowest terms are more than `MAX`.
    fn product(self, other: Self) -> Result<Self, OpWide>
        ensures ok { IfOk result (λ r. exact r ≡ op_value op.Product (exact self) (exact other)) }
        ensures fits { IfOk result (λ r. is_too_wide MAX op.Product (exact self) (exact other) ≡ false) }
        ensures wide { IfErr result (λ e. is_too_wide MAX op.Product (exact self) (exact other) ≡ true) }
        ensures named { IfErr result (λ e. e.op ≡ op.Product) };

    /// The quotient by a number that isn't 0. Refused exactly if its lowest terms are more than `MAX`.
    fn quotient(self, other: Self) -> Result<Self, OpWide>
        requires { (exact other).num ≢ pos 0 }
        ensures ok { IfOk result (λ r. exact r ≡ op_value op.Quotient (exact self) (exact other)) }
        ensures fits { IfOk result (λ r. is_too_wide MAX op.Quotient (exact self) (exact other) ≡ false) }
        ensures wide { IfErr result (λ e. is_too_wide MAX op.Quotient (exact self) (exact other) ≡ true) }
        ensures named { IfErr result (λ e. e.op ≡ op.Quotient) };

    /// The order of the values. Never refused.
    fn order(self, other: Self) -> Ordering
        ensures { result ≡ order_of (exact self) (exact other) };

    /// Whether the value is 0.
    fn is_zero(self) -> bool
        ensures { result ≡ is_zero (exact self) };

    /// -1, 0 or 1.
    fn sign(self) -> i32
        ensures { result ≡ signum (exact self).num };

    /// The numerator and the denominator, in lowest terms.
    fn parts(self) -> (i128, i128)
        ensures num { result.0 ≡ (exact self).num }
        ensures den { result.1 ≡ pos (exact self).den }
        ensures fits { fraction_fits MAX (exact self) ≡ true };

    /// The same number at 128 bits. Never refused, since its parts fit there.
    fn widened(self) -> Frac<i128>
        ensures { result ≡ exact self };

    // The greatest value lies between 1 and that of 128 bits.
    ghost max_law: { IsWidth MAX };
}

impl<T: Integer> Exact for Frac<T> {
    ghost exact = { λ x. x };

    ghost use Rattle.stack_rational.specs.Widths.{width_of};

    ghost MAX = { T.MAX };

    ghost max_law = { width_of T.MAX T.Integer.laws.greatest };

    const MAX: i128 = T::MAX;

    fn zero() -> Self {
        Frac::zero()
    }

    fn one() -> Self {
        Frac::one()
    }

    fn from_whole(n: i128) -> Result<Self, OpWide> {
        match Frac::from_whole(n) {
            Ok(x) => Ok(x),
            Err(_) => Err(OpWide { op: Op::Whole }),
        }
    }

    fn sum(self, other: Self) -> Result<Self, OpWide> {
        match self.sum(other) {
            Ok(x) => Ok(x),
            Err(_) => Err(OpWide { op: Op::Sum }),
        }
    }

    fn difference(self, other: Self) -> Result<Self, OpWide> {
        match self.sum(other.negated()) {
            Ok(x) => Ok(x),
            Err(_) => Err(OpWide { op: Op::Difference }),
        }
    }

    fn product(self, other: Self) -> Result<Self, OpWide> {
        match self.product(other) {
            Ok(x) => Ok(x),
            Err(_) => Err(OpWide { op: Op::Product }),
        }
    }

    fn quotient(self, other: Self) -> Result<Self, OpWide> {
        match self.quotient(other) {
            Ok(x) => Ok(x),
            Err(_) => Err(OpWide { op: Op::Quotient }),
        }
    }

    fn order(self, other: Self) -> Ordering {
        self.order(other)
    }

    fn is_zero(self) -> bool {
        self.is_zero()
    }

    fn sign(self) -> i32 {
        self.sign()
    }

    fn parts(self) -> (i128, i128) {
        self.parts()
    }

    fn widened(self) -> Frac<i128> {
        let (n, d) = self.parts();
        over(n, d)
    }
}
