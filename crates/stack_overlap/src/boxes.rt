//! Spans that have no point in common.

ghost use Rattle.std.specs.Prelude.{◌↔◌, IsTrue};
ghost use Rattle.stack_overlap.specs.Boxes.{AreDisjoint, HaveNoX, HaveNoY};

use stack_polygon::Span;

/// Whether no x lies within both spans.
fn have_no_x(a: Span, b: Span) -> bool
    ensures { IsTrue result ↔ HaveNoX a b }
{
    a.x0.max(b.x0) > a.x1.min(b.x1)
}

/// Whether no y lies within both spans.
fn have_no_y(a: Span, b: Span) -> bool
    ensures { IsTrue result ↔ HaveNoY a b }
{
    a.y0.max(b.y0) > a.y1.min(b.y1)
}

/// Whether two spans have no point in common. Those that touch have one, and a span whose bounds are the wrong
/// way round has none with any other. Takes no memory.
pub fn apart(a: Span, b: Span) -> bool
    ensures { IsTrue result ↔ AreDisjoint a b }
{
    have_no_x(a, b) || have_no_y(a, b)
}
