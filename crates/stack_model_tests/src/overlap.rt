//! Separating edges and common points, worked by hand.

use crate::outlines::{at, polygon_of};
use stack_overlap::{Common, Edge, Which, apart, common, separator};
use stack_polygon::Span;
use std::alloc::Global;
use std::test::*;

/// The first separating edge of two outlines, if there is one, and what they have in common.
fn pair(
    alloc: Global,
    first: &[(i64, i64)],
    second: &[(i64, i64)],
) -> Option<Option<(Edge, Common)>> {
    let p = polygon_of(alloc, first)?;
    let q = polygon_of(alloc, second)?;
    match separator(&p, &q) {
        Some(e) => Some(Some((e, common(&p, &q, e)))),
        None => Some(None),
    }
}

fn edge(which: Which, index: usize) -> Edge {
    Edge { which, index }
}

fn segment(from: (i64, i64), to: (i64, i64)) -> Common {
    Common::Segment {
        from: at(from.0, from.1),
        to: at(to.0, to.1),
    }
}

const BASE: [(i64, i64); 4] = [(0, 0), (10, 0), (10, 2), (0, 2)];

const SLANTED: [(i64, i64); 3] = [(0, 0), (6, 0), (0, 6)];

const FAR: i64 = 1_000_000;

const LEFT: [(i64, i64); 4] = [(-FAR, -FAR), (0, -FAR), (0, FAR), (-FAR, FAR)];

const RIGHT: [(i64, i64); 4] = [(0, -FAR), (FAR, -FAR), (FAR, FAR), (0, FAR)];

/// A block in the other, one apart, one on its face, one on a slanted face, and two of the greatest coordinates.
#[test]
fn faces_that_share_a_part_have_a_segment(rt: HostRuntime) {
    let alloc = rt.alloc();
    let found = [
        pair(alloc, &BASE, &[(4, 1), (14, 1), (14, 4), (4, 4)]),
        pair(alloc, &BASE, &[(20, 2), (22, 2), (22, 4), (20, 4)]),
        pair(alloc, &BASE, &[(4, 2), (14, 2), (14, 4), (4, 4)]),
        pair(alloc, &SLANTED, &[(4, 2), (5, 8), (-1, 7)]),
        pair(alloc, &LEFT, &RIGHT),
    ];
    let wanted = [
        Some(None),
        Some(Some((edge(Which::First, 1), Common::Nothing))),
        Some(Some((edge(Which::First, 2), segment((4, 2), (10, 2))))),
        Some(Some((edge(Which::First, 1), segment((0, 6), (4, 2))))),
        Some(Some((edge(Which::First, 1), segment((0, -FAR), (0, FAR))))),
    ];
    assert!(rt; found == wanted);
}

const DIAMOND: [(i64, i64); 4] = [(5, 2), (7, 4), (5, 6), (3, 4)];

#[test]
fn a_corner_lies_on_an_edge_of_the_other_or_on_a_corner(rt: HostRuntime) {
    let alloc = rt.alloc();
    let found = [
        pair(alloc, &BASE, &DIAMOND),
        pair(alloc, &DIAMOND, &BASE),
        pair(alloc, &BASE, &[(10, 2), (12, 2), (12, 4), (10, 4)]),
    ];
    let (below, above) = (edge(Which::First, 2), edge(Which::Second, 2));
    let tip = at(5, 2);
    let wanted = [
        Some(Some((
            below,
            Common::OnEdge {
                at: tip,
                edge: below,
            },
        ))),
        Some(Some((
            above,
            Common::OnEdge {
                at: tip,
                edge: above,
            },
        ))),
        Some(Some((edge(Which::First, 1), Common::Corner(at(10, 2))))),
    ];
    assert!(rt; found == wanted);
}

fn span(x0: i64, y0: i64, x1: i64, y1: i64) -> Span {
    Span { x0, y0, x1, y1 }
}

/// The last box has no point, since its bounds are the wrong way round.
#[test]
fn boxes_that_touch_are_not_apart(rt: HostRuntime) {
    let base = span(0, 0, 10, 2);
    let found = [
        apart(base, span(10, 2, 12, 4)),
        apart(base, span(11, 0, 12, 2)),
        apart(base, span(4, 3, 6, 5)),
        apart(base, span(5, 0, 4, 2)),
    ];
    assert!(rt; found == [false, true, true, true]);
}
