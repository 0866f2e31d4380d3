//! Choices worked by hand, at each width.

use crate::problems::{Numbers, problem};
use stack_bland::{RatioWide, entering, leaving};
use stack_rational::{Exact, Frac};
use stack_table::{Problem, Table};
use std::alloc::Global;
use std::test::*;

/// What enters among all columns, and what leaves for it.
type Choices = (Option<usize>, Result<Option<usize>, RatioWide>);

fn choices<S: Exact>(t: &Table<S>) -> Choices {
    match entering(t, t.columns()) {
        Some(j) => (Some(j), leaving(t, j)),
        None => (None, Ok(None)),
    }
}

/// The choices after a pivot in column 0.
fn choices_after<S: Exact>(t: &mut Table<S>, row: usize) -> Option<Choices> {
    if row >= t.rows() {
        return None;
    }
    if t.columns() == 0 {
        return None;
    }
    if t.cell(row, 0).is_zero() {
        return None;
    }
    match t.pivot(row, 0) {
        Ok(()) => Some(choices(t)),
        Err(_) => None,
    }
}

/// The same in the table of a problem that is sound.
fn choices_of<S: Exact>(alloc: Global, p: &Problem, row: usize) -> Option<Choices> {
    if !p.is_sound() {
        return None;
    }
    match Table::<S>::build(alloc, p) {
        Ok(mut t) => choices_after(&mut t, row),
        Err(_) => None,
    }
}

/// After the pivot both ratios are equal.
const EQUAL: Numbers = Numbers {
    contact: &[&[0, 1], &[1, 1]],
    factor: None,
    right: &[1, 1],
};

/// After the pivot a ratio is too wide for 8 bits.
const WIDE: Numbers = Numbers {
    contact: &[&[2, 1], &[1, 1]],
    factor: None,
    right: &[0, 100],
};

/// Whether the choices of a problem after its pivot are these.
fn chooses<S: Exact>(alloc: Global, numbers: Numbers, row: usize, wanted: Choices) -> bool {
    match problem(alloc, numbers) {
        Some(p) => choices_of::<S>(alloc, &p, row) == Some(wanted),
        None => false,
    }
}

/// Equal ratios: the lesser basic column leaves, which isn't that of the first row.
fn equal_ratios_hold<S: Exact>(alloc: Global) -> bool {
    chooses::<S>(alloc, EQUAL, 1, (Some(1), Ok(Some(1))))
}

#[test]
fn one_body_holds_at_8_64_and_128_bits_and_a_ratio_too_wide_names_its_row(rt: HostRuntime) {
    let alloc = rt.alloc();
    let found = [
        equal_ratios_hold::<Frac<i8>>(alloc),
        equal_ratios_hold::<Frac<i64>>(alloc),
        equal_ratios_hold::<Frac<i128>>(alloc),
        chooses::<Frac<i8>>(alloc, WIDE, 0, (Some(1), Err(RatioWide { row: 1 }))),
        chooses::<Frac<i64>>(alloc, WIDE, 0, (Some(1), Ok(Some(0)))),
    ];
    assert!(rt; found == [true; 5]);
}
