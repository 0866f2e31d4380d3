//! Each public call on a post of width 2 and height 4, and lists of corners that are taken and refused.

use crate::outlines::{at, outline, polygon_of};
use stack_polygon::{PolygonError, Span, advance, next, triangle};
use std::alloc::Global;
use std::test::*;

/// Whether the post has the corners, sides, area and moments worked by hand.
fn post_is_known(alloc: Global) -> Option<bool> {
    let post = polygon_of(alloc, &[(0, 0), (0, 4), (2, 4), (2, 0)])?;
    Some(
        post.len() == 4
            && post.corner(0) == at(0, 0)
            && post.corner(1) == at(2, 0)
            && post.side(0, at(1, 1)) == 1
            && post.side(0, at(1, 0)) == 0
            && post.side(0, at(1, -1)) == -1
            && post.twice_area() == 16
            && post.six_moments() == (48, 96),
    )
}

fn tilted_span(alloc: Global) -> Option<Span> {
    let tilted = polygon_of(alloc, &[(3, 1), (4, 5), (-2, 6), (-7, 2)])?;
    Some(tilted.span())
}

#[test]
fn a_polygon_has_its_corners_sides_area_moments_and_span(rt: HostRuntime) {
    let span = Span {
        x0: -7,
        y0: 1,
        x1: 4,
        y1: 6,
    };
    assert!(rt; post_is_known(rt.alloc()) == Some(true) && tilted_span(rt.alloc()) == Some(span));
}

/// Why a list of corners is no polygon.
fn fault(alloc: Global, corners: &[(i64, i64)]) -> Option<PolygonError> {
    outline(alloc, corners)?.err()
}

/// A star whose turns are all to the left, a straight corner as it is written to the left and to the right, two
/// corners, and far ones.
#[test]
fn lists_of_corners_are_refused_with_their_fault(rt: HostRuntime) {
    let alloc = rt.alloc();
    let found = [
        fault(alloc, &[(0, 10), (-6, -8), (10, 3), (-10, 3), (6, -8)]),
        fault(alloc, &[(0, 0), (2, 0), (2, 2), (1, 2), (0, 2)]),
        fault(alloc, &[(0, 0), (0, 2), (1, 2), (2, 2), (2, 0)]),
        fault(alloc, &[(0, 0), (1, 1)]),
        fault(alloc, &[(0, 0), (1_000_001, 0), (0, -1_000_001)]),
    ];
    let wanted = [
        Some(PolygonError::NotConvex { edge: 0 }),
        Some(PolygonError::NotConvex { edge: 2 }),
        Some(PolygonError::NotConvex { edge: 0 }),
        Some(PolygonError::Corners),
        Some(PolygonError::Range { corner: 1 }),
    ];
    assert!(rt; found == wanted);
}

#[test]
fn turns_and_ways_along_a_line(rt: HostRuntime) {
    let (o, p, q) = (at(1, 1), at(5, 4), at(2, 3));
    assert!(rt; triangle(o, p, q) == 5 && advance(o, p, q) == 10);
    assert!(rt; next(3, 1) == 2 && next(3, 2) == 0);
}
