//! The problem of a post that is pushed at its head, worked by hand.

use crate::drawings::{PUSHED, surveyed};
use stack_equilibrium::Question;
use stack_posing::pose;
use stack_table::{Column, Problem};
use std::alloc::Global;
use std::test::*;

/// Whether a column has these rows and values.
fn has(column: &Column, wanted: &[(usize, i128)]) -> bool {
    if column.entries.len() != wanted.len() {
        return false;
    }
    for k in 0..wanted.len() {
        let (row, value) = wanted[k];
        if column.entries[k].row != row || column.entries[k].value != value {
            return false;
        }
    }
    true
}

const CONTACT: &[&[(usize, i128)]] = &[
    &[(0, 1), (1, 1)],
    &[(0, -1), (1, 1)],
    &[(0, 1), (1, 1), (2, 2)],
    &[(0, -1), (1, 1), (2, 2)],
];

fn has_contact(problem: &Problem) -> bool {
    if problem.contact.len() != CONTACT.len() {
        return false;
    }
    for k in 0..CONTACT.len() {
        if !has(&problem.contact[k], CONTACT[k]) {
            return false;
        }
    }
    true
}

fn has_factor(problem: &Problem) -> bool {
    match &problem.factor {
        Some(column) => has(column, &[(0, 6), (2, -24)]),
        None => false,
    }
}

/// The rows, whether the columns and the right sides are those worked by hand.
fn told(problem: &Problem) -> (usize, bool, bool, bool) {
    (
        problem.rows,
        has_contact(problem),
        has_factor(problem),
        problem.right.as_slice() == [0, 48, 48].as_slice(),
    )
}

fn posed(alloc: Global) -> Option<(usize, bool, bool, bool)> {
    let s = surveyed(alloc, PUSHED)?;
    match pose(alloc, &s, Question::Live) {
        Ok(problem) => Some(told(&problem)),
        Err(_) => None,
    }
}

#[test]
fn a_pushed_post_has_four_columns_and_that_of_the_factor(rt: HostRuntime) {
    assert!(rt; posed(rt.alloc()) == Some((3, true, true, true)));
}
