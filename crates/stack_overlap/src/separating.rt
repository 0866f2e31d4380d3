//! Edges that separate two polygons.

ghost use Rattle.std.specs.Prelude.{◌≡◌, ◌<◌, ◌↔◌, length, IsTrue, MatchOption, IfSome, IfNone};
ghost use lib.IntN.{pos};
ghost use Rattle.stack_algebra.specs.IntegerOrder.{◌≺◌};
ghost use Rattle.stack_polygon.specs.Corners.{side_of};
ghost use Rattle.stack_polygon.specs.Limits.{IsInRange, IsPolygon};
ghost use Rattle.stack_overlap.specs.Separation.{Separates, NoneSeparates, IsFirstSeparating};
ghost use Rattle.stack_overlap.specs.Separation.{IsSeparator, IsSeparatedBy, Overlaps};

use crate::types::{Edge, Which};
use stack_polygon::{Point, Polygon};

/// Whether a point lies strictly left of an edge's line.
fn is_left_of_edge(p: &Polygon, i: usize, at: Point) -> bool
    requires index { i < length p.now }
    requires range { IsInRange at }
    ensures { IsTrue result ↔ (pos 0 ≺ side_of p.now i at) }
{
    p.side(i, at) > 0
}

/// Whether no corner of `q` lies strictly left of edge `i` of `p`.
fn separates(p: &Polygon, i: usize, q: &Polygon) -> bool
    requires { i < length p.now }
    ensures polygon { IsPolygon q.now }
    ensures value { IsTrue result ↔ Separates p.now i q.now }
{
    for j in 0..q.len() {
        if is_left_of_edge(p, i, q.corner(j)) {
            return false;
        }
    }
    true
}

/// The first edge of `p` that separates it from `q`.
fn first_separating(p: &Polygon, q: &Polygon) -> Option<usize>
    ensures polygon { IsPolygon p.now }
    ensures other { IfSome result (λ i. IsPolygon q.now) }
    ensures first { MatchOption result (NoneSeparates p.now q.now) (λ i. IsFirstSeparating p.now i q.now) }
{
    for i in 0..p.len() {
        if separates(p, i, q) {
            return Some(i);
        }
    }
    None
}

/// The first edge, those of `p` before those of `q`, such that no corner of the other polygon lies strictly left of its
/// line. `None` exactly if no edge is such, and then some point is strictly inside both; where an edge is such, none
/// is. Takes no memory.
pub fn separator(p: &Polygon, q: &Polygon) -> Option<Edge>
    ensures first { MatchOption result (NoneSeparates p.now q.now × NoneSeparates q.now p.now)
        (λ e. IsSeparator p.now q.now e) }
    ensures overlap { IfNone result (Overlaps p.now q.now) }
    ensures apart { IfSome result (λ e. ¬ (Overlaps p.now q.now)) }
    ensures separates { IfSome result (λ e. IsSeparatedBy p.now q.now e.which e.index) }
{
    if let Some(index) = first_separating(p, q) {
        return Some(Edge {
            which: Which::First,
            index,
        });
    }
    match first_separating(q, p) {
        Some(index) => Some(Edge {
            which: Which::Second,
            index,
        }),
        None => None,
    }
}
