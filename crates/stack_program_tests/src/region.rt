//! The worked rows of two live loads on a post, and texts of directions.

use crate::drawings::{GROUND, LOW_GROUND, POST, PRESSURE, PUSH, STONE, SWAY, surveyed};
use stack_contact::Survey;
use stack_directions::{DirectionsError, NoPair, directed, pair, read_directions};
use stack_yield::{RegionError, region, write_region};
use std::alloc::Global;
use std::test::*;

/// The post, pushed to the right at its upper left corner and pressed in the middle of its head.
const TWICE: &[&str] = &[STONE, GROUND, POST, PUSH, PRESSURE];

/// The same post above the ground.
const FLOATING: &[&str] = &[STONE, LOW_GROUND, POST, PUSH, PRESSURE];

/// Whether the text of the region of the first two loads begins with these lines, and whether it ends there.
fn begins(alloc: Global, s: &Survey, text: &[u8], lines: &[u8]) -> Option<(bool, bool)> {
    let Ok((i, j)) = pair(s.model(), 1, 2) else {
        return None;
    };
    let Ok(dirs) = read_directions(alloc, text) else {
        return None;
    };
    let Ok(found) = region(alloc, s, i, j, dirs.as_slice(), 100) else {
        return None;
    };
    let text = write_region(alloc, found).ok()?;
    Some((text.starts_with(lines), text.len() == lines.len()))
}

fn begins_of(alloc: Global, pieces: &[&str], text: &[u8], lines: &[u8]) -> Option<(bool, bool)> {
    let s = surveyed(alloc, pieces)?;
    begins(alloc, &s, text, lines)
}

/// The region worked by hand; and a floating post falls whatever the direction.
#[test]
fn a_post_under_a_push_and_a_weight_has_the_region_worked_by_hand(rt: HostRuntime) {
    let alloc = rt.alloc();
    let found = [
        begins_of(
            alloc,
            TWICE,
            b"dir 1 0\ndir 1 1\ndir -1 0\ndir 0 1\n",
            b"region 4\ndir 1 0 reach 2/1 0/1\nhalf 24 -6 48\ndir 1 1 reach 8/3 8/3\nhalf 24 -6 48\n\
            dir -1 0 reach -2/1 0/1\nhalf -24 -6 48\ndir 0 1 unlimited\n",
        ),
        begins_of(alloc, FLOATING, b"dir 0 1\n", b"collapses\nmotion\n"),
    ];
    assert!(rt; found == [Some((true, true)), Some((true, false))]);
}

/// Why one pivot gives no region to the right.
fn refusal(alloc: Global, s: &Survey) -> Option<RegionError> {
    let Ok((i, j)) = pair(s.model(), 1, 2) else {
        return None;
    };
    let Ok(dirs) = read_directions(alloc, b"dir 1 0\n") else {
        return None;
    };
    region(alloc, s, i, j, dirs.as_slice(), 1).err()
}

type Pairs = [Result<(usize, usize), NoPair>; 4];

/// Why one pivot gives no region, and what pairs of numbers name.
fn refusal_and_pairs(alloc: Global) -> Option<(Option<RegionError>, Pairs)> {
    let s = surveyed(alloc, TWICE)?;
    let model = s.model();
    let pairs = [
        pair(model, 1, 1),
        pair(model, 1, 3),
        pair(model, 0, 1),
        pair(model, 2, 1),
    ];
    Some((refusal(alloc, &s), pairs))
}

/// A budget is spent at the first direction, and a pair is refused at its first number that names no load.
#[test]
fn budgets_and_pairs_are_refused_at_the_first_fault(rt: HostRuntime) {
    let spent = RegionError::Spent { direction: 0 };
    let pairs = [
        Err(NoPair { load: 1 }),
        Err(NoPair { load: 3 }),
        Err(NoPair { load: 0 }),
        Ok((1, 0)),
    ];
    assert!(rt; refusal_and_pairs(rt.alloc()) == Some((Some(spent), pairs)));
}

/// The sway, the bearings, and both loads.
fn told(s: &Survey) -> Option<((i64, i64), usize, [(i64, i64); 2])> {
    let model = s.model();
    if model.loads() != 2 {
        return None;
    }
    let (first, second) = (model.load(0), model.load(1));
    let forces = [(first.fx, first.fy), (second.fx, second.fy)];
    Some((model.sway(), s.bearings().len(), forces))
}

/// A sway, and three live loads, of which the second stands between.
const BETWEEN: &[&str] = &[
    SWAY,
    STONE,
    GROUND,
    POST,
    PUSH,
    "[[load]]\nblock = 'post'\nkind = 'live'\nat = [2, 4]\nforce = [7, 7]\n",
    PRESSURE,
];

type Towards = ((i64, i64), usize, [(i64, i64); 2]);

/// What the survey towards (3, -5) has.
fn towards_of(alloc: Global, s: &Survey) -> Option<Towards> {
    let Ok((i, j)) = pair(s.model(), 1, 3) else {
        return None;
    };
    match directed(alloc, s, i, j, 3, -5) {
        Ok(towards) => told(&towards),
        Err(_) => None,
    }
}

fn towards(alloc: Global) -> Option<Towards> {
    let s = surveyed(alloc, BETWEEN)?;
    towards_of(alloc, &s)
}

#[test]
fn a_directed_survey_has_two_live_loads_and_no_sway(rt: HostRuntime) {
    let wanted = ((0, 0), 2, [(3, 0), (0, 5)]);
    assert!(rt; towards(rt.alloc()) == Some(wanted));
}

/// The line that is named as faulty.
fn line(alloc: Global, text: &[u8]) -> Option<usize> {
    match read_directions(alloc, text) {
        Err(DirectionsError::Line { number }) => Some(number),
        _ => None,
    }
}

#[test]
fn faulty_lines_are_numbered(rt: HostRuntime) {
    let alloc = rt.alloc();
    let lines = [
        line(alloc, b""),
        line(alloc, b"dir 0 0\n"),
        line(alloc, b"dir 1001 0\n"),
        line(alloc, b"dir 01 1\n"),
        line(alloc, b"dir 1 1\ndir 1 -0\n"),
        line(alloc, b"dir 1 1\ndir -1000 1000"),
        line(alloc, b"dir -1000 1000\n"),
    ];
    let (one, two) = (Some(1), Some(2));
    assert!(rt; lines == [one, one, one, one, two, two, None]);
}
