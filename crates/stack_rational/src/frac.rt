//! Fractions in lowest terms over one type of integers.

ghost use Rattle.std.specs.Prelude.{◌≡◌, ◌≢◌, ℕ, pos, ◌<ℤ◌, IfOk, OnErr, unsigned_abs};
ghost use Prim.Native.Nat.{◌∣◌};
ghost use Rattle.stack_algebra.proofs.Fractions.{add, mul, neg, of};
ghost use Rattle.stack_algebra.proofs.FractionField.{inv};
ghost use Rattle.stack_algebra.proofs.Over.{over};
ghost use Rattle.stack_rational.specs.Stored.{Fits, IsShared, IsStored, SumFits, Within};
ghost use Rattle.num_traits.specs.Laws.{Checks};
ghost use Rattle.stack_rational.specs.CommonScale.{common_multiple, times_scale};
ghost use Rattle.stack_algebra.specs.IntegerOrder.{signum};
ghost use Rattle.stack_rational.specs.Order.{order_of, is_zero_whole};

use crate::common_divisor::divisor;
use crate::comparing::order_of_parts;
use crate::integer::{Integer, as_broad, is_minus, opposite, part, plus, times, unless_least};
use std::alloc::AllocError;
use std::cmp::Ordering;
use std::marker::Model;

/// A fraction in lowest terms, its denominator positive.
#[derive(Copy)]
pub struct Frac<T: Integer> {
    num: T,
    den: T,
}

impl<T: Integer> Model for Frac<T> {
    ghost use Rattle.std.specs.Prelude.{pos, unsigned_abs};
    ghost use Rattle.stack_algebra.specs.Fraction.{Fraction};
    ghost use Rattle.stack_algebra.proofs.Over.{over, over-lowest, frac_code};

    ghost Value = { Fraction };

    ghost coded = { frac_code };

    ghost use Rattle.stack_rational.specs.Stored.{IsHeld};
    ghost use Rattle.stack_rational.specs.Back.{from_integer, back_to};

    ghost view = { λ f. over (T.value f.num) (T.value f.den) };

    ghost invariant = { λ f. IsHeld T.MAX T.value (from_integer T.width T.of_bits) f.num f.den };

    ghost inverse = { λ x. record {
      num = from_integer T.width T.of_bits x.num;
      den = from_integer T.width T.of_bits (pos x.den);
    } };

    ghost inverse_ok = { λ a h. λ i. record {
      num = back_to (from_integer T.width T.of_bits) a.num (over-lowest _ _ h.stored.lowest).0 h.num_back i;
      den = back_to (from_integer T.width T.of_bits) a.den (over-lowest _ _ h.stored.lowest).1 h.den_back i;
    } };
}

impl<T: Integer> Clone for Frac<T> {
    ghost use Rattle.std.specs.Prelude.{◌≡◌, ⊤};

    ghost is_clone = { λ v w. w ≡ v };

    ghost is_infallible = { λ _. ⊤ };

    fn clone(&self) -> Result<Self, AllocError> {
        Ok(made(self.num, self.den))
    }
}

/// An answer, or a number on the way to it, would be more than the greatest value.
#[derive(Clone, Copy, Drop)]
pub struct PartWide;

/// The fraction with these parts, which are in lowest terms.
fn made<T: Integer>(num: T, den: T) -> Frac<T>
    requires { IsStored T.MAX (T.value num) (T.value den) }
    ensures { result ≡ over (T.value num) (T.value den) }
{
    Frac { num, den }
}

/// The greatest common divisor of two numbers, and both divided by it.
fn shared<T: Integer>(a: T, d: T) -> (T, T, T)
    requires a { Within T.MAX (T.value a) }
    requires d { Within T.MAX (T.value d) × (pos 0 <ℤ T.value d) }
    ensures { IsShared T.MAX (T.value a) (T.value d) (T.value result.0) (T.value result.1) (T.value result.2) }
{
    let g = divisor(a, d);
    (g, part(a, g), part(d, g))
}

/// A numerator over a positive denominator, in lowest terms, where the denominator is a multiple of g and each common
/// divisor divides g: a divisor with g is found sooner.
fn reduced_by<T: Integer>(num: T, den: T, g: T) -> Frac<T>
    requires num { Within T.MAX (T.value num) }
    requires den { Within T.MAX (T.value den) }
    requires by { Within T.MAX (T.value g) × (pos 0 <ℤ T.value g) }
    requires inner { (pos 0 <ℤ T.value den) × (unsigned_abs (T.value g) ∣ unsigned_abs (T.value den)) }
    requires outer { (e : ℕ) → e ∣ unsigned_abs (T.value num) → e ∣ unsigned_abs (T.value den) →
        e ∣ unsigned_abs (T.value g) }
    ensures { result ≡ over (T.value num) (T.value den) }
{
    let h = divisor(num, g);
    made(part(num, h), part(den, h))
}

impl<T: Integer> Frac<T> {
    /// The number 0.
    pub fn zero() -> Self
        ensures { result ≡ of (pos 0) }
    {
        made(T::zero(), T::one())
    }

    /// The number 1.
    pub fn one() -> Self
        ensures { result ≡ of (pos 1) }
    {
        made(T::one(), T::one())
    }

    /// A whole number, refused exactly if its size is more than the greatest value.
    pub(crate) fn from_whole(n: i128) -> Result<Self, PartWide>
        ensures ok { IfOk result (λ r. r ≡ of n) }
        ensures fits { IfOk result (λ r. Within T.MAX n) }
        ensures err { OnErr result (¬ (Within T.MAX n)) }
    {
        match unless_least(T::from_i128(n)) {
            Some(num) => Ok(made(num, T::one())),
            None => Err(PartWide),
        }
    }

    /// The product, refused exactly if its lowest terms are more than the greatest value.
    pub(crate) fn product(self, other: Self) -> Result<Self, PartWide>
        ensures ok { IfOk result (λ r. r ≡ mul self other) }
        ensures fits { IfOk result (λ r. Fits T.MAX (mul self other)) }
        ensures err { OnErr result (¬ (Fits T.MAX (mul self other))) }
    {
        if self.num.is_zero() {
            return Ok(Frac::zero());
        }
        if other.num.is_zero() {
            return Ok(Frac::zero());
        }
        self.product_crosswise(other)
    }

    /// The product by parts that are divided crosswise: a/b * c/d = (a/g)(c/h) / ((b/h)(d/g)), with g = gcd(a, d) and
    /// h = gcd(c, b).
    fn product_crosswise(self, other: Self) -> Result<Self, PartWide>
        ensures ok { IfOk result (λ r. r ≡ mul self other) }
        ensures fits { IfOk result (λ r. Fits T.MAX (mul self other)) }
        ensures err { OnErr result (¬ (Fits T.MAX (mul self other))) }
    {
        let (_, a, d) = shared(self.num, other.den);
        let (_, c, b) = shared(other.num, self.den);
        let num = times(a, c);
        let den = times(b, d);
        match num {
            Some(num) => match den {
                Some(den) => Ok(made(num, den)),
                None => Err(PartWide),
            },
            None => Err(PartWide),
        }
    }

    /// The sum, refused exactly if, over the least common denominator, that denominator, either term or the result is
    /// more than the greatest value.
    pub(crate) fn sum(self, other: Self) -> Result<Self, PartWide>
        ensures ok { IfOk result (λ r. r ≡ add self other) }
        ensures fits { IfOk result (λ r. SumFits T.MAX self other) }
        ensures err { OnErr result (¬ (SumFits T.MAX self other)) }
    {
        let (left, right) = (self.num, other.num);
        if left.is_zero() {
            return Ok(other);
        }
        if right.is_zero() {
            return Ok(self);
        }
        if self.den == other.den {
            return match plus(left, right) {
                Some(num) => Ok(reduced_by(num, self.den, self.den)),
                None => Err(PartWide),
            };
        }
        self.sum_over_common(other)
    }

    /// The sum over the least common denominator: with g = gcd(b, d), a/b + c/d = (a(d/g) + c(b/g)) / ((b/g)d),
    /// where only divisors of g can be left in common.
    fn sum_over_common(self, other: Self) -> Result<Self, PartWide>
        ensures ok { IfOk result (λ r. r ≡ add self other) }
        ensures fits { IfOk result (λ r. SumFits T.MAX self other) }
        ensures err { OnErr result (¬ (SumFits T.MAX self other)) }
    {
        let (g, by_right, by_left) = shared(self.den, other.den);
        let Some(den) = times(by_right, other.den) else {
            return Err(PartWide);
        };
        let Some(left) = times(self.num, by_left) else {
            return Err(PartWide);
        };
        let Some(right) = times(other.num, by_right) else {
            return Err(PartWide);
        };
        let Some(num) = plus(left, right) else {
            return Err(PartWide);
        };
        Ok(reduced_by(num, den, g))
    }

    /// The number with the other sign.
    pub fn negated(self) -> Self
        ensures { result ≡ neg self }
    {
        made(opposite(self.num), self.den)
    }

    /// 1 over a number that isn't 0.
    pub fn inverted(self) -> Self
        requires { self.num ≢ pos 0 }
        ensures { result ≡ inv self }
    {
        if is_minus(self.num) {
            made(opposite(self.den), opposite(self.num))
        } else {
            made(self.den, self.num)
        }
    }

    /// The quotient by a number that isn't 0, refused exactly if its lowest terms are more than the greatest value.
    pub(crate) fn quotient(self, other: Self) -> Result<Self, PartWide>
        requires { other.num ≢ pos 0 }
        ensures ok { IfOk result (λ r. r ≡ mul (inv other) self) }
        ensures fits { IfOk result (λ r. Fits T.MAX (mul (inv other) self)) }
        ensures err { OnErr result (¬ (Fits T.MAX (mul (inv other) self))) }
    {
        other.inverted().product(self)
    }

    /// The order of the values.
    pub(crate) fn order(self, other: Self) -> Ordering
        ensures { result ≡ order_of self other }
    {
        if is_minus(self.num) {
            if is_minus(other.num) {
                order_of_parts(opposite(other.num), other.den, opposite(self.num), self.den)
            } else {
                Ordering::Less
            }
        } else if is_minus(other.num) {
            Ordering::Greater
        } else {
            order_of_parts(self.num, self.den, other.num, other.den)
        }
    }

    /// The numerator and the denominator.
    pub(crate) fn parts(self) -> (i128, i128)
        ensures num { result.0 ≡ self.num }
        ensures den { result.1 ≡ pos self.den }
        ensures fits { Fits T.MAX self }
    {
        (as_broad(self.num), as_broad(self.den))
    }

    /// Whether the number is 0.
    pub(crate) fn is_zero(self) -> bool
        ensures { result ≡ is_zero_whole self.num }
    {
        self.num.is_zero()
    }

    /// The sign: -1, 0 or 1.
    pub(crate) fn sign(self) -> i32
        ensures { result ≡ signum self.num }
    {
        if self.num.is_zero() {
            0
        } else if is_minus(self.num) {
            -1
        } else {
            1
        }
    }

    /// The least common multiple of a positive number and the denominator, or none where it is more than the greatest
    /// value.
    pub fn joined(&self, scale: T) -> Option<T>
        requires { Within T.MAX (T.value scale) × (pos 0 <ℤ T.value scale) }
        ensures { Checks T.value (Within T.MAX) (pos (common_multiple
            (unsigned_abs (T.value scale)) self.now.den)) result }
    {
        let g = divisor(scale, self.den);
        times(part(scale, g), self.den)
    }

    /// The number times a scale that its denominator divides, or none where that is more than the greatest value.
    pub fn scaled(&self, scale: T) -> Option<T>
        requires { Within T.MAX (T.value scale) × (pos 0 <ℤ T.value scale) }
        ensures { Checks T.value (Within T.MAX) (times_scale (unsigned_abs (T.value scale)) self.now) result }
    {
        times(self.num, part(scale, self.den))
    }
}
