//! The order of two ratios.

ghost use Rattle.std.specs.Prelude.{◌≡◌, ◌*ℤ◌, ◌-ℤ◌, ◌<ℤ◌, pos, IfSome};
ghost use Rattle.stack_algebra.proofs.Over.{over};
ghost use Rattle.stack_algebra.specs.Ordered.{sign_of};
ghost use Rattle.stack_bland.specs.BySign.{by_sign};

use num_traits::CheckedMul;
use stack_rational::{Exact, Frac};
use std::cmp::Ordering;

/// Two ratios: numbers and what they stand over.
#[derive(Clone, Copy)]
pub struct Ratios {
    pub left: i128,
    pub left_under: i128,
    pub right: i128,
    pub right_under: i128,
}

#[derive(Clone, Copy)]
struct Products {
    left: i128,
    right: i128,
}

fn order(p: Products) -> Ordering
    ensures { result ≡ by_sign (sign_of (p.left -ℤ p.right)) }
{
    if p.left < p.right {
        return Ordering::Less;
    }
    if p.right < p.left {
        return Ordering::Greater;
    }
    Ordering::Equal
}

/// The order of two ratios by their cross products. Gives up likely where one doesn't fit 128 bits.
fn by_products(r: Ratios) -> Option<Ordering>
    ensures { IfSome result (λ o. o ≡ by_sign (sign_of (r.left *ℤ r.right_under -ℤ r.right *ℤ r.left_under))) }
{
    let left = CheckedMul::checked_mul(&r.left, &r.right_under)?;
    let right = CheckedMul::checked_mul(&r.right, &r.left_under)?;
    Some(order(Products { left, right }))
}

/// A number and what it stands over.
#[derive(Clone, Copy)]
struct Quotient {
    number: i128,
    under: i128,
}

/// As a fraction in lowest terms. None where it stands over no positive number, and likely nowhere else.
fn fraction(q: Quotient) -> Option<Frac<i128>>
    ensures { IfSome result (λ x. (pos 0 <ℤ q.under) × (x ≡ over q.number q.under)) }
{
    if q.under <= 0 {
        return None;
    }
    let number = match <Frac<i128> as Exact>::from_whole(q.number) {
        Ok(number) => number,
        Err(_) => return None,
    };
    let under = match <Frac<i128> as Exact>::from_whole(q.under) {
        Ok(under) => under,
        Err(_) => return None,
    };
    if under.is_zero() {
        return None;
    }
    match number.quotient(under) {
        Ok(x) => Some(x),
        Err(_) => None,
    }
}

/// The same by their whole parts.
fn by_fractions(r: Ratios) -> Option<Ordering>
    ensures { IfSome result (λ o. o ≡ by_sign (sign_of (r.left *ℤ r.right_under -ℤ r.right *ℤ r.left_under))) }
{
    let left = fraction(Quotient {
        number: r.left,
        under: r.left_under,
    })?;
    let right = fraction(Quotient {
        number: r.right,
        under: r.right_under,
    })?;
    Some(left.order(right))
}

/// The order of two ratios to positive numbers. Gives up likely nowhere where both are positive.
pub fn compare(r: Ratios) -> Option<Ordering>
    ensures { IfSome result (λ o. o ≡ by_sign (sign_of (r.left *ℤ r.right_under -ℤ r.right *ℤ r.left_under))) }
{
    match by_products(r) {
        Some(order) => Some(order),
        None => by_fractions(r),
    }
}
