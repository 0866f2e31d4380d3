//! Which lists of corners are strictly convex and in range, and the list in the other order.

ghost use Rattle.std.specs.Prelude.{◌≡◌, ◌≤◌, ◌<◌, ◌↔◌, length, vec_len, IsTrue, MatchOption};
ghost use Rattle.stack_algebra.specs.IntegerOrder.{◌≺◌};
ghost use lib.IntN.{pos};
ghost use Rattle.stack_polygon.specs.Plane.{triangle_of};
ghost use Rattle.stack_polygon.specs.Corners.{reversed, IsClear, IsStrictlyConvex};
ghost use Rattle.stack_polygon.specs.Limits.{IsInRange, AreInRange};
ghost use Rattle.stack_polygon.specs.Limits.{is_in_range as is_in_range_of, is_near as is_near_of};
ghost use Rattle.stack_polygon.specs.Admission.{IsFirstFar, IsFirstUnclear};

use crate::point::Point;
use crate::turns::{next, triangle};

/// Whether `c` lies strictly left of the line from `a` to `b`.
fn is_left(a: Point, b: Point, c: Point) -> bool
    requires a { IsInRange a }
    requires b { IsInRange b }
    requires c { IsInRange c }
    ensures { IsTrue result ↔ (pos 0 ≺ triangle_of a b c) }
{
    triangle(a, b, c) > 0
}

/// Whether every other corner lies strictly left of edge `i`.
fn is_clear(corners: &[Point], i: usize) -> bool
    requires most { length corners.now ≤ 32 }
    requires index { i < length corners.now }
    requires range { AreInRange corners.now }
    ensures { IsTrue result ↔ IsClear corners.now i }
{
    let k = next(corners.len(), i);
    let a = corners[i];
    let b = corners[k];
    for j in 0..corners.len() {
        if j != i && j != k && !is_left(a, b, corners[j]) {
            return false;
        }
    }
    true
}

/// The first edge that doesn't have every other corner strictly left of it.
pub fn first_unclear(corners: &[Point]) -> Option<usize>
    requires most { length corners.now ≤ 32 }
    requires range { AreInRange corners.now }
    ensures { MatchOption result (IsStrictlyConvex corners.now) (λ e. IsFirstUnclear corners.now e) }
{
    for i in 0..corners.len() {
        if !is_clear(corners, i) {
            return Some(i);
        }
    }
    None
}

fn is_near(z: i64) -> bool
    ensures { result ≡ is_near_of z }
{
    -1_000_000 <= z && z <= 1_000_000
}

/// Whether both coordinates are in -1,000,000 to 1,000,000.
fn is_in_range(c: Point) -> bool
    ensures value { result ≡ is_in_range_of c }
    ensures fact { IsTrue result ↔ IsInRange c }
{
    is_near(c.x) && is_near(c.y)
}

/// The first corner that is out of range.
pub fn first_far(corners: &[Point]) -> Option<usize>
    ensures { MatchOption result (AreInRange corners.now) (λ i. IsFirstFar corners.now i) }
{
    for i in 0..corners.len() {
        if !is_in_range(corners[i]) {
            return Some(i);
        }
    }
    None
}

/// Puts the corners after the first in the other order.
pub fn reverse(corners: &mut Vec<Point>)
    requires { 0 < vec_len corners.old }
    ensures { corners.new.items ≡ reversed corners.old.items }
{
    corners[1..].reverse();
}
