//! Tables worked by hand: built, pivoted and given new objectives at each width, and their refusals.

use crate::problems::{Numbers, SLENDER, problem};
use stack_rational::{Exact, Frac};
use stack_table::{BuildError, PivotWide, Problem, Step, Table};
use std::alloc::Global;
use std::test::*;

/// The table of a problem that is sound.
fn table_of<S: Exact>(alloc: Global, p: &Problem) -> Result<Table<S>, BuildError> {
    if p.is_sound() {
        Table::build(alloc, p)
    } else {
        Err(BuildError::Memory)
    }
}

fn table<S: Exact>(alloc: Global, numbers: Numbers) -> Result<Table<S>, BuildError> {
    match problem(alloc, numbers) {
        Some(p) => table_of(alloc, &p),
        None => Err(BuildError::Memory),
    }
}

/// A pivot, if the place is one and its cell isn't 0.
fn pivot<S: Exact>(t: &mut Table<S>, row: usize, column: usize) -> Option<Result<(), PivotWide>> {
    if row >= t.rows() {
        return None;
    }
    if column >= t.columns() {
        return None;
    }
    if t.cell(row, column).is_zero() {
        return None;
    }
    Some(t.pivot(row, column))
}

/// Whether the block has these numerators, and its marks are on exactly at 0.
fn holds<S: Exact>(t: &Table<S>, numerators: &[i128]) -> bool {
    let block = t.block();
    let marks = t.marks();
    if block.len() != numerators.len() {
        return false;
    }
    for k in 0..block.len() {
        if block[k].parts().0 != numerators[k] {
            return false;
        }
        if marks[k] != (numerators[k] == 0) {
            return false;
        }
    }
    true
}

/// Two rows, of which the second is flipped.
const TWO_ROWS: Numbers = Numbers {
    contact: &[&[1, 2], &[3, 0]],
    factor: None,
    right: &[4, -6],
};

/// Two cells, the basic columns and the flips of a table of two rows and four columns.
fn told<S: Exact>(t: &Table<S>) -> Option<([(i128, i128); 2], [usize; 2], [bool; 2])> {
    if t.rows() != 2 {
        return None;
    }
    if t.columns() != 4 {
        return None;
    }
    Some((
        [t.cell(0, 0).parts(), t.cell(0, 4).parts()],
        [t.basic(0), t.basic(1)],
        [t.flipped(0), t.flipped(1)],
    ))
}

fn two_rows_pivot<S: Exact>(t: &mut Table<S>) -> bool {
    holds(t, &[1, 3, 1, 0, 4, -2, 0, 0, 1, 6, 1, -3, 0, 0, -10])
        && t.contacts() == 2
        && !t.has_factor()
        && pivot(t, 0, 1) == Some(Ok(()))
        && holds(t, &[1, 1, 1, 0, 4, -2, 0, 0, 1, 6, 2, 0, 1, 0, -6])
        && told(t) == Some(([(1, 3), (4, 3)], [1, 3], [false, true]))
}

/// The two rows and their pivot.
fn two_rows_hold<S: Exact>(alloc: Global) -> bool {
    match table::<S>(alloc, TWO_ROWS) {
        Ok(mut t) => two_rows_pivot(&mut t),
        Err(_) => false,
    }
}

/// A new objective row, if there is a factor.
fn take_factor_objective<S: Exact>(t: &mut Table<S>) -> bool {
    if t.has_factor() {
        t.set_factor_objective();
    }
    t.has_factor()
}

/// Two rows with a factor.
const FACTOR: Numbers = Numbers {
    contact: &[&[0, 1], &[1, 1]],
    factor: Some(&[-1, 0]),
    right: &[1, 1],
};

/// Built, cleared, and with the factor as the objective.
fn takes_objectives<S: Exact>(t: &mut Table<S>) -> [bool; 4] {
    let is_built = holds(
        t,
        &[0, 1, -1, 1, 0, 1, 1, 1, 0, 0, 1, 1, -1, -2, 1, 0, 0, -2],
    );
    t.clear_objective();
    let is_cleared = holds(t, &[0, 1, -1, 1, 0, 1, 1, 1, 0, 0, 1, 1, 0, 0, 0, 0, 0, 0]);
    let is_taken = take_factor_objective(t);
    let is_set = holds(t, &[0, 1, -1, 1, 0, 1, 1, 1, 0, 0, 1, 1, 0, 0, -1, 0, 0, 0]);
    [is_built, is_cleared, is_taken, is_set]
}

/// The factor becomes basic, which leaves its objective as it is.
fn keeps_the_objective<S: Exact>(t: &mut Table<S>) -> [bool; 4] {
    let rows = [0, -1, 1, -1, 0, -1, 1, 1, 0, 0, 1, 1, 0, -1, 0, -1, 0, -1];
    let is_basic = pivot(t, 0, 2) == Some(Ok(()));
    let is_set = holds(t, rows.as_slice());
    let is_taken = take_factor_objective(t);
    let is_kept = holds(t, rows.as_slice());
    [is_basic, is_set, is_taken, is_kept]
}

/// The objective is set with the factor basic or not.
fn objectives_hold<S: Exact>(t: &mut Table<S>) -> bool {
    takes_objectives(t) == [true; 4] && keeps_the_objective(t) == [true; 4]
}

fn two_rows_with_a_factor_hold<S: Exact>(alloc: Global) -> bool {
    match table::<S>(alloc, FACTOR) {
        Ok(mut t) => objectives_hold(&mut t),
        Err(_) => false,
    }
}

/// A post of half width 1 and height 1 whose weight is 2.
const HEAVY: Numbers = Numbers {
    contact: &[&[1, 1, 0], &[-1, 1, 0], &[1, 1, 2], &[-1, 1, 2]],
    factor: None,
    right: &[0, 96, 96],
};

/// The greatest block alone.
const BLOCK: Numbers = Numbers {
    contact: &[],
    factor: None,
    right: &[
        0,
        24_000_000_000_000_000_000,
        24_000_000_000_000_000_000_000_000,
    ],
};

/// Whether a table is refused so, or isn't refused.
fn is_refused<S: Exact>(alloc: Global, numbers: Numbers, wanted: Option<BuildError>) -> bool {
    table::<S>(alloc, numbers).err() == wanted
}

/// Whether a table has so many cells, and its first pivot is too wide there.
fn is_wide_there<S: Exact>(t: &mut Table<S>, cells: usize, place: PivotWide) -> bool {
    t.block().len() == cells && pivot(t, 0, 0) == Some(Err(place))
}

fn slender_is_wide_there<S: Exact>(alloc: Global, place: PivotWide) -> bool {
    match table::<S>(alloc, SLENDER) {
        Ok(mut t) => is_wide_there(&mut t, 32, place),
        Err(_) => false,
    }
}

/// A table names the first place that is too wide, and a pivot the place and the step.
#[test]
fn what_is_too_wide_names_its_place(rt: HostRuntime) {
    let alloc = rt.alloc();
    let post = BuildError::Wide { row: 3, column: 7 };
    let block = BuildError::Wide { row: 1, column: 3 };
    let pivot = PivotWide {
        row: 3,
        column: 3,
        step: Step::Subtract,
    };
    let found = [
        is_refused::<Frac<i8>>(alloc, HEAVY, Some(post)),
        is_refused::<Frac<i128>>(alloc, HEAVY, None),
        is_refused::<Frac<i64>>(alloc, BLOCK, Some(block)),
        slender_is_wide_there::<Frac<i8>>(alloc, pivot),
    ];
    assert!(rt; found == [true; 4]);
}

/// One column and no rows.
const NO_ROWS: Numbers = Numbers {
    contact: &[&[]],
    factor: None,
    right: &[],
};

/// A column with an entry below the last row.
const OUTSIDE: Numbers = Numbers {
    contact: &[&[0, 1]],
    factor: None,
    right: &[5],
};

/// A right side past the greatest.
const GREAT: Numbers = Numbers {
    contact: &[],
    factor: None,
    right: &[1 << 100],
};

fn no_rows_hold<S: Exact>(alloc: Global) -> bool {
    match table::<S>(alloc, NO_ROWS) {
        Ok(t) => holds(&t, &[0, 0]),
        Err(_) => false,
    }
}

fn is_unsound(alloc: Global, numbers: Numbers) -> bool {
    match problem(alloc, numbers) {
        Some(p) => !p.is_sound(),
        None => false,
    }
}

/// Two rows, and at 8 bits new objectives and a problem with no rows; and problems that aren't sound.
#[test]
fn one_body_holds_at_8_64_and_128_bits(rt: HostRuntime) {
    let alloc = rt.alloc();
    let found = [
        two_rows_hold::<Frac<i8>>(alloc),
        two_rows_hold::<Frac<i64>>(alloc),
        two_rows_hold::<Frac<i128>>(alloc),
        two_rows_with_a_factor_hold::<Frac<i8>>(alloc),
        no_rows_hold::<Frac<i8>>(alloc),
        is_unsound(alloc, OUTSIDE),
        is_unsound(alloc, GREAT),
    ];
    assert!(rt; found == [true; 7]);
}
