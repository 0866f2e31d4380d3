//! The range of a post, worked by hand: pushed at its head it tips to either side at two pushes, and a load that
//! presses it down may be turned round until it lifts the weight of 8.

use crate::drawings::{
    GROUND, LOW_GROUND, POST, PRESSURE, PUSH, PUSHED, STANDING, STONE, SWAY, surveyed,
};
use stack_contact::Survey;
use stack_range::{RangeError, Side, other_side, range, write_range};
use std::alloc::Global;
use std::test::*;

/// Whether the text of the range begins with these lines.
fn begins_over(alloc: Global, s: &Survey, lines: &str) -> Option<bool> {
    let Ok(found) = range(alloc, s, 20_000) else {
        return None;
    };
    match write_range(alloc, found) {
        Ok(text) => Some(text.as_slice().starts_with(lines.as_bytes())),
        Err(_) => None,
    }
}

fn begins(alloc: Global, pieces: &[&str], lines: &str) -> Option<bool> {
    let s = surveyed(alloc, pieces)?;
    begins_over(alloc, &s, lines)
}

const PRESSED: &[&str] = &[STONE, GROUND, POST, PRESSURE];

const FLOATING: &[&str] = &[STONE, LOW_GROUND, POST, PUSH];

/// The pushed post tips to either side at two pushes, the pressed one is lifted by its weight alone, and a floating one
/// falls whatever pushes it.
#[test]
fn the_ranges_of_posts_are_those_worked_by_hand(rt: HostRuntime) {
    let alloc = rt.alloc();
    let found = [
        begins(alloc, PUSHED, "range -2/1 2/1\ngreatest\n"),
        begins(alloc, PRESSED, "range -8/1 unlimited\nunbounded\n"),
        begins(alloc, FLOATING, "collapses\nmotion\n"),
    ];
    assert!(rt; found == [Some(true); 3]);
}

/// Why one pivot gives no range.
fn refusal(alloc: Global, pieces: &[&str]) -> Option<RangeError> {
    let s = surveyed(alloc, pieces)?;
    range(alloc, &s, 1).err()
}

#[test]
fn a_live_load_is_looked_for_and_the_greatest_side_is_judged_first(rt: HostRuntime) {
    let alloc = rt.alloc();
    let spent = RangeError::Spent {
        side: Side::Greatest,
    };
    let found = [refusal(alloc, STANDING), refusal(alloc, PUSHED)];
    assert!(rt; found == [Some(RangeError::NoLive), Some(spent)]);
}

/// The sway, the bearings, and the load along x.
fn told(s: &Survey) -> Option<((i64, i64), usize, i64)> {
    let model = s.model();
    if model.loads() == 1 {
        Some((model.sway(), s.bearings().len(), model.load(0).fx))
    } else {
        None
    }
}

const THRICE: &[&str] = &[
    SWAY,
    STONE,
    GROUND,
    POST,
    "[[load]]\nblock = 'post'\nkind = 'live'\nat = [0, 4]\nforce = [3, 0]\n",
];

fn other_told(alloc: Global, s: &Survey) -> Option<((i64, i64), usize, i64)> {
    match other_side(alloc, s) {
        Ok(other) => told(&other),
        Err(_) => None,
    }
}

fn other(alloc: Global) -> Option<((i64, i64), usize, i64)> {
    let s = surveyed(alloc, THRICE)?;
    other_told(alloc, &s)
}

#[test]
fn the_other_side_is_swayed_and_pushed_the_other_way(rt: HostRuntime) {
    assert!(rt; other(rt.alloc()) == Some(((-1, 2), 2, -3)));
}
