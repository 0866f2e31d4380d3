//! The least and the greatest coordinates of a list of corners.

ghost use Rattle.std.specs.Prelude.{◌≡◌, ◌<◌, length};
ghost use Rattle.std.specs.Int.{int_min, int_max};
ghost use Rattle.stack_polygon.specs.Spans.{IsSpanOf};

use crate::point::{Point, Span};

/// The span of one point.
fn span_at(c: Point) -> Span
    ensures x0 { result.x0 ≡ c.x }
    ensures y0 { result.y0 ≡ c.y }
    ensures x1 { result.x1 ≡ c.x }
    ensures y1 { result.y1 ≡ c.y }
{
    Span {
        x0: c.x,
        y0: c.y,
        x1: c.x,
        y1: c.y,
    }
}

/// A span with one more point.
fn wider(s: Span, c: Point) -> Span
    ensures x0 { result.x0 ≡ int_min s.x0 c.x }
    ensures y0 { result.y0 ≡ int_min s.y0 c.y }
    ensures x1 { result.x1 ≡ int_max s.x1 c.x }
    ensures y1 { result.y1 ≡ int_max s.y1 c.y }
{
    Span {
        x0: s.x0.min(c.x),
        y0: s.y0.min(c.y),
        x1: s.x1.max(c.x),
        y1: s.y1.max(c.y),
    }
}

/// The span of a list of corners.
pub fn span_of(corners: &[Point]) -> Span
    requires { 0 < length corners.now }
    ensures { IsSpanOf corners.now result }
{
    let mut span = span_at(corners[0]);
    for i in 1..corners.len() {
        span = wider(span, corners[i]);
    }
    span
}
