//! Contacts of pairs and surveys of models, worked by hand.

use crate::drawings::{GROUND, SMOOTH, at, bearing, model_of};
use stack_contact::{Contacts, Survey, SurveyError, Touch, contacts, survey, survey_again};
use stack_frame::{Cone, frame_of};
use stack_polygon::Polygon;
use std::alloc::Global;
use std::test::*;

/// The polygon of four corners.
fn polygon(alloc: Global, corners: [(i64, i64); 4]) -> Option<Polygon> {
    let mut points = Vec::new(alloc);
    for (x, y) in corners {
        points.push(at(x, y)).ok()?;
    }
    Polygon::new(points).ok()
}

/// The contacts of a flat block, 10 wide and 2 high, with the block of these corners.
fn with_base(alloc: Global, corners: [(i64, i64); 4]) -> Option<Option<Contacts>> {
    let base = polygon(alloc, [(0, 0), (10, 0), (10, 2), (0, 2)])?;
    let block = polygon(alloc, corners)?;
    Some(contacts(&base, &block))
}

/// A block on part of its face, a stone on its point, a corner on its corner, a block apart, and one that overlaps.
#[test]
fn two_blocks_bear_touch_or_are_free(rt: HostRuntime) {
    let alloc = rt.alloc();
    let found = [
        with_base(alloc, [(4, 2), (14, 2), (14, 4), (4, 4)]),
        with_base(alloc, [(4, 2), (5, 3), (4, 4), (3, 3)]),
        with_base(alloc, [(10, 2), (12, 2), (12, 4), (10, 4)]),
        with_base(alloc, [(20, 2), (22, 2), (22, 4), (20, 4)]),
        with_base(alloc, [(4, 1), (14, 1), (14, 4), (4, 4)]),
    ];
    let frame = frame_of(1, 0);
    let at_two = Contacts::AtTwo {
        from: at(4, 2),
        to: at(10, 2),
        frame,
    };
    let at_one = Contacts::AtOne {
        at: at(4, 2),
        frame,
    };
    let wanted = [
        Some(Some(at_two)),
        Some(Some(at_one)),
        Some(Some(Contacts::Touching(at(10, 2)))),
        Some(Some(Contacts::Free)),
        Some(None),
    ];
    assert!(rt; found == wanted);
}

/// The ground; three fixed blocks, of which the first overlaps it, the second lies beside it, and the third bears on
/// the second; a post on the ground, and a block that touches it at its corner.
const SIX: &[&str] = &[
    SMOOTH,
    GROUND,
    "[[block]]\nname = 'over'\nmaterial = 'stone'\nfixed = true\n\
    corners = [[5, -1], [15, -1], [15, 0], [5, 0]]\n",
    "[[block]]\nname = 'beside'\nmaterial = 'stone'\nfixed = true\n\
    corners = [[-12, -1], [-10, -1], [-10, 0], [-12, 0]]\n",
    "[[block]]\nname = 'above'\nmaterial = 'stone'\nfixed = true\n\
    corners = [[-12, 0], [-10, 0], [-10, 1], [-12, 1]]\n",
    "[[block]]\nname = 'post'\nmaterial = 'stone'\ncorners = [[0, 0], [2, 0], [2, 4], [0, 4]]\n",
    "[[block]]\nname = 'touching'\nmaterial = 'stone'\ncorners = [[2, 4], [4, 4], [4, 6], [2, 6]]\n",
];

/// The contacts of the six blocks: the post's two feet, and the corner that is touched.
fn has_contacts(s: &Survey) -> bool {
    let half = Cone::new(1, 2);
    let bearings = [bearing(0, 4, at(0, 0), half), bearing(0, 4, at(2, 0), half)];
    let touch = Touch {
        first: 4,
        second: 5,
        at: at(2, 4),
    };
    s.bearings() == bearings.as_slice() && s.touches() == [touch].as_slice()
}

/// The bodies, the free blocks, which body the second free block is, and its number among the free ones.
fn free_blocks(s: &Survey) -> Option<[usize; 4]> {
    if s.model().bodies() != 6 {
        return None;
    }
    if s.free_count() != 2 {
        return None;
    }
    let second = s.free(1);
    Some([6, 2, second, s.free_number(second)])
}

/// The survey of the same blocks without loads and without a sway.
fn has_contacts_again(alloc: Global, s: &Survey) -> Option<bool> {
    let Ok(bare) = s.model().with_loads(alloc, &[], (0, 0)) else {
        return None;
    };
    match survey_again(alloc, s, bare) {
        Ok(again) => Some(has_contacts(&again)),
        Err(_) => None,
    }
}

type Told = (bool, Option<[usize; 4]>, Option<bool>);

fn told(alloc: Global, s: &Survey) -> Told {
    (
        has_contacts(s),
        free_blocks(s),
        has_contacts_again(alloc, s),
    )
}

fn six(alloc: Global) -> Option<Told> {
    let s = survey(alloc, model_of(alloc, SIX)?).ok()?;
    Some(told(alloc, &s))
}

#[test]
fn a_survey_lists_bearings_touches_and_free_blocks(rt: HostRuntime) {
    let wanted = (true, Some([6, 2, 5, 1]), Some(true));
    assert!(rt; six(rt.alloc()) == Some(wanted));
}

const LEFT: &str =
    "[[block]]\nname = 'left'\nmaterial = 'stone'\ncorners = [[0, 0], [2, 0], [2, 2], [0, 2]]\n";

/// It overlaps the left one.
const OVER_LEFT: &str =
    "[[block]]\nname = 'over_left'\nmaterial = 'stone'\ncorners = [[1, 1], [3, 1], [3, 3], [1, 3]]\n";

/// It overlaps the ground.
const SUNK: &str =
    "[[block]]\nname = 'sunk'\nmaterial = 'stone'\ncorners = [[5, -1], [7, -1], [7, 1], [5, 1]]\n";

const RIGHT: &str =
    "[[block]]\nname = 'right'\nmaterial = 'stone'\ncorners = [[10, 0], [12, 0], [12, 2], [10, 2]]\n";

/// It overlaps the right one.
const OVER_RIGHT: &str =
    "[[block]]\nname = 'over_right'\nmaterial = 'stone'\ncorners = [[11, 1], [13, 1], [13, 3], [11, 3]]\n";

/// Why these blocks have no survey.
fn refusal(alloc: Global, pieces: &[&str]) -> Option<SurveyError> {
    survey(alloc, model_of(alloc, pieces)?).err()
}

/// Also if another pair lies further left.
#[test]
fn the_first_pair_that_overlaps_is_named(rt: HostRuntime) {
    let alloc = rt.alloc();
    let found = [
        refusal(alloc, &[SMOOTH, GROUND, LEFT, OVER_LEFT, SUNK]),
        refusal(alloc, &[SMOOTH, RIGHT, OVER_RIGHT, LEFT, OVER_LEFT]),
    ];
    let sunk = SurveyError::Overlap {
        first: 0,
        second: 3,
    };
    let right = SurveyError::Overlap {
        first: 0,
        second: 1,
    };
    assert!(rt; found == [Some(sunk), Some(right)]);
}
