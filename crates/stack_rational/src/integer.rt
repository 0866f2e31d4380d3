//! Signed integers whose least value isn't used, and their exact operations.

ghost use Rattle.std.specs.Prelude.{◌≡◌, ℤ, pos, ◌-◌, ◌^◌, ◌*ℤ◌, ◌+ℤ◌, ◌<ℤ◌, int_div, int_lt, neg_ℤ};
ghost use Rattle.std.specs.Int.{w8, w64, w128};
ghost use Rattle.num_traits.specs.Laws.{Checks};
ghost use Rattle.stack_rational.specs.Stored.{Within};
ghost use Rattle.stack_rational.specs.Widths.{SignedLaws, signed_laws};

use num_traits::{
    Bounded, CheckedAdd, CheckedMul, CheckedSub, FixedWidth, FromPrimitive, Signed, ToPrimitive,
};

/// A signed integer type of which the least value is not used.
pub trait Integer: Copy
    + Signed
    + Bounded
    + FixedWidth
    + CheckedAdd
    + CheckedSub
    + CheckedMul
    + FromPrimitive
    + ToPrimitive {
    // The greatest value.
    ghost MAX: { ℤ };

    const MAX: i128;

    // The type has each integer up to the greatest value in size, and but the least value no other.
    ghost laws: { SignedLaws Self.width Self.fits Self.value Self.of_bits Self.low MAX };
}

impl Integer for i8 {
    ghost MAX = { pos (2 ^ 7 - 1) };

    const MAX: i128 = i8::MAX as i128;

    ghost laws = { signed_laws w8 };
}

impl Integer for i64 {
    ghost MAX = { pos (2 ^ 63 - 1) };

    const MAX: i128 = i64::MAX as i128;

    ghost laws = { signed_laws w64 };
}

impl Integer for i128 {
    ghost MAX = { pos (2 ^ 127 - 1) };

    const MAX: i128 = i128::MAX as i128;

    ghost laws = { signed_laws w128 };
}

/// What is left where the least value is not used.
pub fn unless_least<T: Integer>(x: Option<T>) -> Option<T>
    ensures { (z : ℤ) → Checks T.value T.fits z x → Checks T.value (Within T.MAX) z result }
{
    let y = x?;
    if y == T::min_value() { None } else { Some(y) }
}

/// A product, or none where its size is more than the greatest value.
pub fn times<T: Integer>(a: T, b: T) -> Option<T>
    ensures { Checks T.value (Within T.MAX) (T.value a *ℤ T.value b) result }
{
    let product = a.checked_mul(&b);
    unless_least(product)
}

/// A sum, or none where its size is more than the greatest value.
pub fn plus<T: Integer>(a: T, b: T) -> Option<T>
    ensures { Checks T.value (Within T.MAX) (T.value a +ℤ T.value b) result }
{
    unless_least(a.checked_add(&b))
}

/// A quotient by a positive number.
pub fn part<T: Integer>(a: T, g: T) -> T
    requires size { Within T.MAX (T.value a) }
    requires divisor { Within T.MAX (T.value g) }
    requires positive { pos 0 <ℤ T.value g }
    ensures value { T.value result ≡ int_div (T.value a) (T.value g) }
    ensures size { Within T.MAX (T.value result) }
{
    if g.is_one() { a } else { a / g }
}

/// Whether a number is below another.
pub fn is_less<T: Integer>(a: T, b: T) -> bool
    ensures { result ≡ int_lt (T.value a) (T.value b) }
{
    a < b
}

/// Whether a number is below 0.
pub fn is_minus<T: Integer>(x: T) -> bool
    ensures { result ≡ int_lt (T.value x) (pos 0) }
{
    x < T::zero()
}

/// A number with the other sign.
pub fn opposite<T: Integer>(x: T) -> T
    requires { Within T.MAX (T.value x) }
    ensures value { T.value result ≡ neg_ℤ (T.value x) }
    ensures size { Within T.MAX (T.value result) }
{
    -x
}

/// A number of the type at 128 bits.
pub fn as_broad<T: Integer>(x: T) -> i128
    requires { Within T.MAX (T.value x) }
    ensures { result ≡ T.value x }
{
    match x.to_i128() {
        Some(n) => n,
        None => 0,
    }
}
