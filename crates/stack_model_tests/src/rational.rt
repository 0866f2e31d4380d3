//! Rows at the three widths, and agreement with plain arithmetic that uses nothing of this crate.

use stack_rational::{Exact, Frac, Op, OpWide, ScaleWide, common_scale};
use std::cmp::Ordering;

mod plain;

/// n over d, if both fit.
fn fraction<E: Exact>(n: i128, d: i128) -> Option<E> {
    let Ok(num) = E::from_whole(n) else {
        return None;
    };
    let Ok(den) = E::from_whole(d) else {
        return None;
    };
    match apply(Op::Quotient, num, den) {
        Ok(x) => Some(x),
        Err(_) => None,
    }
}

/// The answer of an operation; a quotient by 0 isn't asked for.
fn apply<E: Exact>(op: Op, left: E, right: E) -> Result<E, OpWide> {
    match op {
        Op::Whole => Ok(left),
        Op::Sum => left.sum(right),
        Op::Difference => left.difference(right),
        Op::Product => left.product(right),
        Op::Quotient => {
            if right.is_zero() {
                Ok(left)
            } else {
                left.quotient(right)
            }
        }
    }
}

/// The answer of an operation, on parts and as parts.
fn answer<E: Exact>(op: Op, a: i128, b: i128, c: i128, d: i128) -> Result<(i128, i128), OpWide> {
    let Some(left) = fraction::<E>(a, b) else {
        return Err(OpWide { op: Op::Whole });
    };
    let Some(right) = fraction::<E>(c, d) else {
        return Err(OpWide { op: Op::Whole });
    };
    match apply(op, left, right) {
        Ok(x) => Ok(x.parts()),
        Err(e) => Err(e),
    }
}

fn order<E: Exact>(a: i128, b: i128, c: i128, d: i128) -> Option<Ordering> {
    let left = fraction::<E>(a, b)?;
    let right = fraction::<E>(c, d)?;
    Some(left.order(right))
}

/// What holds at every width.
fn holds_at_a_width<E: Exact>() -> bool {
    answer::<E>(Op::Sum, 1, 2, 1, 3) == Ok((5, 6))
        && answer::<E>(Op::Difference, 1, 2, 1, 2) == Ok((0, 1))
        && answer::<E>(Op::Product, 100, 3, 3, 100) == Ok((1, 1))
        && answer::<E>(Op::Quotient, 100, 127, 100, 127) == Ok((1, 1))
        && answer::<E>(Op::Quotient, 1, 2, -3, 4) == Ok((-2, 3))
        && answer::<E>(Op::Sum, E::MAX, 1, 1, 1) == Err(OpWide { op: Op::Sum })
        && answer::<E>(Op::Difference, -E::MAX, 1, 1, 1) == Err(OpWide { op: Op::Difference })
        && order::<E>(-127, 1, 127, 1) == Some(Ordering::Less)
        && order::<E>(100, 127, 101, 126) == Some(Ordering::Less)
        && order::<E>(2, 4, 1, 2) == Some(Ordering::Equal)
}

#[test]
fn one_body_holds_at_8_64_and_128_bits(rt: HostRuntime) {
    let found = [
        holds_at_a_width::<Frac<i8>>(),
        holds_at_a_width::<Frac<i64>>(),
        holds_at_a_width::<Frac<i128>>(),
    ];
    assert!(rt; found == [true; 3]);
}

#[test]
fn rows_at_8_bits(rt: HostRuntime) {
    let found = [
        answer::<Frac<i8>>(Op::Whole, -128, 1, 1, 1),
        answer::<Frac<i8>>(Op::Sum, 100, 1, 100, 1),
        answer::<Frac<i8>>(Op::Difference, -100, 1, 100, 1),
        answer::<Frac<i8>>(Op::Sum, 1, 127, 1, 126),
        answer::<Frac<i8>>(Op::Sum, 65, 2, 65, 2),
        answer::<Frac<i8>>(Op::Sum, 1, 6, 1, 10),
        answer::<Frac<i8>>(Op::Product, 12, 1, 12, 1),
        answer::<Frac<i8>>(Op::Quotient, 12, 1, 1, 12),
    ];
    let wanted = [
        Err(OpWide { op: Op::Whole }),
        Err(OpWide { op: Op::Sum }),
        Err(OpWide { op: Op::Difference }),
        Err(OpWide { op: Op::Sum }),
        Err(OpWide { op: Op::Sum }),
        Ok((4, 15)),
        Err(OpWide { op: Op::Product }),
        Err(OpWide { op: Op::Quotient }),
    ];
    assert!(rt; found == wanted);
}

/// The common scale of two fractions, and the first of them at a scale.
fn scaled(
    first: (i128, i128),
    second: (i128, i128),
    scale: i128,
) -> Option<(Result<i128, ScaleWide>, Option<i128>)> {
    let left = fraction::<Frac<i128>>(first.0, first.1)?;
    let right = fraction::<Frac<i128>>(second.0, second.1)?;
    let at_scale = if 0 < scale { left.scaled(scale) } else { None };
    Some((common_scale(&[left, right]), at_scale))
}

/// The common scale of a half, a third and five sixths.
fn scale_of_three() -> Option<Result<i128, ScaleWide>> {
    let half = fraction::<Frac<i128>>(1, 2)?;
    let third = fraction::<Frac<i128>>(1, 3)?;
    let rest = fraction::<Frac<i128>>(5, 6)?;
    Some(common_scale(&[half, third, rest]))
}

#[test]
fn a_list_has_a_common_scale(rt: HostRuntime) {
    let wide = Err(ScaleWide { index: 1 });
    let found = [
        scaled((3, 4), (5, 6), 12),
        scaled((1, i128::MAX), (1, 2), i128::MAX),
    ];
    assert!(rt; found == [Some((Ok(12), Some(9))), Some((wide, Some(1)))]);
    assert!(rt; scale_of_three() == Some(Ok(6)));
    assert!(rt; common_scale(&[]) == Ok(1));
}

/// A number's parts, its sign, and whether it is 0.
fn told(x: Frac<i64>) -> ((i128, i128), i32, bool) {
    (x.parts(), x.sign(), x.is_zero())
}

#[test]
fn signs_and_the_numbers_0_and_1(rt: HostRuntime) {
    let sign = match fraction::<Frac<i64>>(-3, 7) {
        Some(x) => x.sign(),
        None => 0,
    };
    let found = [told(Exact::zero()), told(Exact::one())];
    assert!(rt; sign == -1 && found == [((0, 1), 0, true), ((1, 1), 1, false)]);
}
