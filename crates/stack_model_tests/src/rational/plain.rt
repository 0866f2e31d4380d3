//! Each operation at 8 bits against plain arithmetic in 128 bits, which uses nothing of this crate.

use super::{apply, fraction};
use stack_rational::{Exact, Frac, Op};

/// What an answer should be: the parts of a fraction, or none if it is more than 127.
type Expected = Option<(i128, i128)>;

fn plain_divisor(a: i128, b: i128) -> i128 {
    let mut x = a.wrapping_abs();
    let mut y = b.wrapping_abs();
    for _ in 0..200 {
        if y == 0 {
            return x;
        }
        let rest = x.wrapping_rem(y);
        x = y;
        y = rest;
    }
    x
}

/// Lowest terms with a positive denominator, if both parts are at most 127 in size.
fn lowest(n: i128, d: i128) -> Expected {
    let g = plain_divisor(n, d);
    if g == 0 || d == 0 {
        return None;
    }
    let up = n.wrapping_div(g);
    let down = d.wrapping_div(g);
    let (num, den) = if down < 0 {
        (up.wrapping_neg(), down.wrapping_neg())
    } else {
        (up, down)
    };
    if small(num) && small(den) {
        Some((num, den))
    } else {
        None
    }
}

fn small(n: i128) -> bool {
    -127 <= n && n <= 127
}

/// a/b + c/d over the least common denominator, each number at most 127 in size.
fn sum(a: i128, b: i128, c: i128, d: i128) -> Expected {
    let g = plain_divisor(b, d);
    if g == 0 {
        return None;
    }
    let left = a.wrapping_mul(d.wrapping_div(g));
    let right = c.wrapping_mul(b.wrapping_div(g));
    let den = b.wrapping_div(g).wrapping_mul(d);
    let num = left.wrapping_add(right);
    if small(left) && small(right) && small(den) && small(num) {
        lowest(num, den)
    } else {
        None
    }
}

fn expected(op: Op, a: i128, b: i128, c: i128, d: i128) -> Expected {
    match op {
        Op::Whole => Some((a, b)),
        Op::Sum => sum(a, b, c, d),
        Op::Difference => sum(a, b, c.wrapping_neg(), d),
        Op::Product => lowest(a.wrapping_mul(c), b.wrapping_mul(d)),
        Op::Quotient => {
            if c == 0 {
                Some((a, b))
            } else {
                lowest(a.wrapping_mul(d), b.wrapping_mul(c))
            }
        }
    }
}

fn agrees(op: Op, left: Frac<i8>, right: Frac<i8>) -> bool {
    let (a, b) = left.parts();
    let (c, d) = right.parts();
    let found = match apply(op, left, right) {
        Ok(x) => Some(x.parts()),
        Err(_) => None,
    };
    found == expected(op, a, b, c, d)
}

fn order_agrees(left: Frac<i8>, right: Frac<i8>) -> bool {
    let (a, b) = left.parts();
    let (c, d) = right.parts();
    left.order(right) == a.wrapping_mul(d).cmp(&c.wrapping_mul(b))
}

fn all_agree(left: Frac<i8>, right: Frac<i8>) -> bool {
    order_agrees(left, right)
        && agrees(Op::Sum, left, right)
        && agrees(Op::Difference, left, right)
        && agrees(Op::Product, left, right)
        && agrees(Op::Quotient, left, right)
}

/// Both against one another; if one can't be made they don't agree.
fn agree(left: (i8, i8), right: (i8, i8)) -> bool {
    let left = fraction::<Frac<i8>>(i128::from(left.0), i128::from(left.1));
    let right = fraction::<Frac<i8>>(i128::from(right.0), i128::from(right.1));
    match (left, right) {
        (Some(left), Some(right)) => all_agree(left, right),
        _ => false,
    }
}

/// One fraction against all with a numerator from -12 to 12 and a denominator from 1 to 12.
fn agrees_with_small(left: (i8, i8)) -> bool {
    for n in -12i8..13 {
        for d in 1i8..13 {
            if !agree(left, (n, d)) {
                return false;
            }
        }
    }
    true
}

#[test]
fn small_fractions_agree_with_plain_arithmetic(rt: HostRuntime) {
    for n in -12i8..13 {
        for d in 1i8..13 {
            assert!(rt; agrees_with_small((n, d)));
        }
    }
}

#[test]
fn fractions_near_127_agree_with_plain_arithmetic(rt: HostRuntime) {
    for n in 119i8..127 {
        for d in 119i8..127 {
            assert!(rt; agrees_with_small((n, d)));
            assert!(rt; agrees_with_small((n.wrapping_neg(), d)));
        }
    }
}
