//! Whole numbers of 64 bits, called words: most numbers of a row are.

ghost use Rattle.std.specs.Prelude.{◌≡◌, ◌≤◌, ◌^◌, ◌-◌, ◌*◌, ◌*ℤ◌, true, IfSome};

use num_traits::CheckedMul;

/// The last 64 bits, each of them on.
const LAST_BITS: u128 = u64::MAX as u128;

/// Below this size a number is small: two of these together are a word.
pub const SMALL: u128 = 1 << 62;

/// The last 64 bits of a number.
pub fn low(n: i128) -> i64 {
    ((n.cast_unsigned() & LAST_BITS) as u64).cast_signed()
}

/// Whether a size is that of a word.
pub fn is_word(size: u128) -> bool
    ensures { result ≡ true → size ≤ 2 ^ 63 - 1 }
{
    size <= i64::MAX as u128
}

/// A number as a word, if it is one.
pub fn word(n: i128) -> Option<i64>
    ensures { IfSome result (λ r. r ≡ n) }
{
    let word = low(n);
    if word as i128 == n { Some(word) } else { None }
}

/// The product of two words: it fits.
pub fn product_of(a: i64, b: i64) -> i128
    ensures { result ≡ a *ℤ b }
{
    a as i128 * b as i128
}

/// The product of two sizes of 64 bits: it fits.
pub fn size_product_of(a: u64, b: u64) -> u128
    ensures { result ≡ a * b }
{
    u128::from(a) * u128::from(b)
}

/// The product of a number and a word, quicker where both are words. Gives up where it doesn't fit.
pub fn product(number: i128, by: i64) -> Option<i128>
    ensures { IfSome result (λ r. r ≡ number *ℤ by) }
{
    let word = low(number);
    // made before the test: the compiler takes one multiplication then, and else three
    let product = product_of(word, by);
    if word as i128 == number {
        Some(product)
    } else {
        CheckedMul::checked_mul(&number, &(by as i128))
    }
}

/// The product of two numbers, quicker where both are words. Gives up where it doesn't fit.
pub fn whole_product(a: i128, b: i128) -> Option<i128>
    ensures { IfSome result (λ r. r ≡ a *ℤ b) }
{
    match word(b) {
        Some(word) => product(a, word),
        None => CheckedMul::checked_mul(&a, &b),
    }
}

/// The product of two sizes, quicker where both are of 64 bits. Gives up where it doesn't fit.
pub fn size_product(a: u128, b: u128) -> Option<u128>
    ensures { IfSome result (λ r. r ≡ a * b) }
{
    let left = u128::from((a & LAST_BITS) as u64);
    let right = u128::from((b & LAST_BITS) as u64);
    // made before the test, as in `product`
    let product = left * right;
    if left == a && right == b {
        Some(product)
    } else {
        CheckedMul::checked_mul(&a, &b)
    }
}

/// The inverse of an odd word modulo 2^64, by Newton's steps: each doubles the bits that are right. No clause says so:
/// a quotient that is made with it is tested by its product.
pub fn word_inverse(odd: i64) -> i64 {
    let mut inverse = odd.wrapping_mul(3) ^ 2;
    for _ in 0..4 {
        inverse = inverse.wrapping_mul(2i64.wrapping_sub(odd.wrapping_mul(inverse)));
    }
    inverse
}

/// The same of an odd number modulo 2^128, by one step more.
pub fn inverse(odd: i128) -> i128 {
    let inverse = word_inverse(low(odd)) as i128;
    inverse.wrapping_mul(2i128.wrapping_sub(odd.wrapping_mul(inverse)))
}
