//! The order of two fractions by their whole parts, which makes no wider product.

ghost use Rattle.std.specs.Prelude.{◌≡◌, pos, ◌*ℤ◌, ◌<ℤ◌, ◌≤ℤ◌};
ghost use Rattle.std.specs.Ordering.{int_cmp};
ghost use Rattle.stack_rational.specs.Stored.{Within, Split};

use crate::integer::{Integer, is_less};
use std::cmp::Ordering;

/// How often a positive number goes into one that isn't negative, and what is left.
fn divided<T: Integer>(a: T, b: T) -> (T, T)
    requires a { Within T.MAX (T.value a) × (pos 0 ≤ℤ T.value a) }
    requires b { Within T.MAX (T.value b) × (pos 0 <ℤ T.value b) }
    ensures { Split (T.value a) (T.value b) (T.value result.0) (T.value result.1) }
{
    (a / b, a % b)
}

/// The order of a over b and c over d, by their whole parts.
pub fn order_of_parts<T: Integer>(a: T, b: T, c: T, d: T) -> Ordering
    requires a { Within T.MAX (T.value a) × (pos 0 ≤ℤ T.value a) }
    requires b { Within T.MAX (T.value b) × (pos 0 <ℤ T.value b) }
    requires c { Within T.MAX (T.value c) × (pos 0 ≤ℤ T.value c) }
    requires d { Within T.MAX (T.value d) × (pos 0 <ℤ T.value d) }
    ensures { result ≡ int_cmp (T.value a *ℤ T.value d) (T.value c *ℤ T.value b) }
{
    let mut a = a;
    let mut b = b;
    let mut c = c;
    let mut d = d;
    'steps: loop {
        let (q, r) = divided(a, b);
        let (p, s) = divided(c, d);
        if is_less(q, p) {
            return Ordering::Less;
        }
        if is_less(p, q) {
            return Ordering::Greater;
        }
        if s.is_zero() {
            return if r.is_zero() {
                Ordering::Equal
            } else {
                Ordering::Greater
            };
        }
        if r.is_zero() {
            return Ordering::Less;
        }
        a = d;
        c = b;
        d = r;
        b = s;
    }
}
