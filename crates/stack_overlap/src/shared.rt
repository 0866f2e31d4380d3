//! The common points of two polygons that an edge separates.

ghost use Rattle.std.specs.Prelude.{◌≡◌, ◌↔◌, length, IsTrue, MatchOption};
ghost use Rattle.stack_polygon.specs.Plane.{Triple};
ghost use Rattle.stack_polygon.specs.Limits.{IsInRange, IsPolygon};
ghost use Rattle.stack_overlap.specs.Separation.{Separates, IsSeparatedBy, IsCommon};
ghost use Rattle.stack_overlap.specs.Ends.{IsExtremeIn, IsEndAt};
ghost use Rattle.stack_overlap.specs.CommonPoints.{IsBefore, IsCommonOf};
ghost use Rattle.stack_overlap.specs.Marks.{IsMarked, IsStretch, NoneOnLine, IsClipped, swapped};

use crate::marks::{
    Mark, Stretch, higher, is_at_either, is_on_line, lower, mark_of, precedes, wider,
};
use crate::types::{Common, Edge, Which};
use stack_polygon::{Point, Polygon, next};

/// Whether a is before b by x, then y.
fn is_before(a: Point, b: Point) -> bool
    ensures { IsTrue result ↔ IsBefore a b }
{
    a.x < b.x || a.x == b.x && a.y < b.y
}

/// The first and the last corner of q on the line from a to b.
fn stretch_along(a: Point, b: Point, q: &Polygon) -> Option<Stretch>
    requires a { IsInRange a }
    requires b { IsInRange b }
    ensures polygon { IsPolygon q.now }
    ensures reach { MatchOption result (NoneOnLine a b q.now (length q.now))
        (λ r. IsStretch a b q.now (length q.now) r) }
{
    let mut best: Option<Stretch> = None;
    for j in 0..q.len() {
        let at = q.corner(j);
        if is_on_line(a, b, at) {
            best = Some(wider(best, mark_of(a, b, at)));
        }
    }
    best
}

/// The part of a reach on the segment from a to b.
fn clipped(a: Point, b: Point, r: Stretch) -> Stretch
    requires a { IsInRange a }
    requires b { IsInRange b }
    requires low { IsMarked a b r.low }
    requires high { IsMarked a b r.high }
    ensures { IsClipped a b r result }
{
    Stretch {
        low: higher(r.low, Mark { place: 0, at: a }),
        high: lower(r.high, mark_of(a, b, b)),
    }
}

/// What edge i of p and q have in common, where the edge separates them.
fn common_on(p: &Polygon, i: usize, q: &Polygon) -> Common
    requires { Separates p.now i q.now }
    ensures { IsCommonOf p.now q.now result }
{
    let a = p.corner(i);
    let b = p.corner(next(p.len(), i));
    match stretch_along(a, b, q) {
        None => Common::Nothing,
        Some(r) => {
            let s = clipped(a, b, r);
            let start = Mark { place: 0, at: a };
            let end = mark_of(a, b, b);
            if precedes(s.high, s.low) {
                Common::Nothing
            } else if precedes(s.low, s.high) {
                if is_before(s.low.at, s.high.at) {
                    Common::Segment {
                        from: s.low.at,
                        to: s.high.at,
                    }
                } else {
                    Common::Segment {
                        from: s.high.at,
                        to: s.low.at,
                    }
                }
            } else if is_at_either(s.low, start, end) {
                // A corner of q that is an end of the edge, and so a corner of both: no edge determines a
                // tangent there, so it will be a touch.
                Common::Corner(s.low.at)
            } else {
                // A corner of q alone, strictly within the edge: it bears along the edge.
                Common::OnEdge {
                    at: s.low.at,
                    edge: Edge {
                        which: Which::First,
                        index: i,
                    },
                }
            }
        }
    }
}

/// What two polygons have in common, told with the other one first.
fn swap_common(c: Common) -> Common
    ensures { result ≡ swapped c }
{
    match c {
        Common::Nothing => Common::Nothing,
        Common::Corner(at) => Common::Corner(at),
        Common::OnEdge { at, edge } => Common::OnEdge {
            at,
            edge: Edge {
                which: match edge.which {
                    Which::First => Which::Second,
                    Which::Second => Which::First,
                },
                index: edge.index,
            },
        },
        Common::Segment { from, to } => Common::Segment { from, to },
    }
}

/// The common points of two polygons, where edge `e` separates them: none, a lone corner of both, a lone corner of
/// one of them strictly within an edge of the other, or a segment. Takes no memory.
pub fn common(p: &Polygon, q: &Polygon, e: Edge) -> Common
    requires { IsSeparatedBy p.now q.now e.which e.index }
    ensures points { IsCommonOf p.now q.now result }
    ensures ends { (X : Triple) → IsExtremeIn (IsCommon p.now q.now) X ↔ IsEndAt result X }
{
    match e.which {
        Which::First => common_on(p, e.index, q),
        Which::Second => swap_common(common_on(q, e.index, p)),
    }
}
