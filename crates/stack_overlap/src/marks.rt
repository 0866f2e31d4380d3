//! Corners on a line, with their places along it.

ghost use Rattle.std.specs.Prelude.{◌≡◌, ◌⊎◌, ◌↔◌, IsTrue, MatchOption};
ghost use lib.IntN.{pos};
ghost use Rattle.stack_algebra.specs.IntegerOrder.{◌≺◌};
ghost use Rattle.stack_polygon.specs.Limits.{IsInRange};
ghost use Rattle.stack_overlap.specs.Forms.{at_corner as value_at, line, along};
ghost use Rattle.stack_overlap.specs.Marks.{IsLower, IsHigher, IsWider};

use stack_polygon::{Point, advance, triangle};

/// A corner on a line, with its place along it.
#[derive(Clone, Copy)]
pub struct Mark {
    pub place: i64,
    pub at: Point,
}

/// The first and the last corner on a line.
#[derive(Clone, Copy)]
pub struct Stretch {
    pub low: Mark,
    pub high: Mark,
}

/// How far `c` lies ahead of `a` on the way to `b`, times the distance of `a` and `b`.
fn place_along(a: Point, b: Point, c: Point) -> i64
    requires a { IsInRange a }
    requires b { IsInRange b }
    requires c { IsInRange c }
    ensures { result ≡ value_at (along a b) c }
{
    advance(a, b, c)
}

/// Positive where `c` lies left of the line from `a` to `b`, 0 on it.
fn turn(a: Point, b: Point, c: Point) -> i64
    requires a { IsInRange a }
    requires b { IsInRange b }
    requires c { IsInRange c }
    ensures { result ≡ value_at (line a b) c }
{
    triangle(a, b, c)
}

/// Whether c is on the line from a to b.
pub fn is_on_line(a: Point, b: Point, c: Point) -> bool
    requires a { IsInRange a }
    requires b { IsInRange b }
    requires c { IsInRange c }
    ensures { IsTrue result ↔ (value_at (line a b) c ≡ pos 0) }
{
    is_same(turn(a, b, c), 0)
}

/// Whether two numbers are equal.
fn is_same(k: i64, n: i64) -> bool
    ensures { IsTrue result ↔ (k ≡ n) }
{
    k <= n && n <= k
}

/// Whether a mark comes before another.
pub fn precedes(a: Mark, b: Mark) -> bool
    ensures { IsTrue result ↔ (a.place ≺ b.place) }
{
    a.place < b.place
}

/// Whether a mark has the place of one of two others.
pub fn is_at_either(m: Mark, a: Mark, b: Mark) -> bool
    ensures { IsTrue result ↔ ((m.place ≡ a.place) ⊎ (m.place ≡ b.place)) }
{
    is_same(m.place, a.place) || is_same(m.place, b.place)
}

/// A corner with its place along the line from a to b.
pub fn mark_of(a: Point, b: Point, at: Point) -> Mark
    requires a { IsInRange a }
    requires b { IsInRange b }
    requires at { IsInRange at }
    ensures at { result.at ≡ at }
    ensures place { result.place ≡ value_at (along a b) at }
{
    let place = place_along(a, b, at);
    Mark { place, at }
}

/// The earlier of two marks.
pub fn lower(a: Mark, b: Mark) -> Mark
    ensures { IsLower a b result }
{
    if b.place < a.place { b } else { a }
}

/// The later of two marks.
pub fn higher(a: Mark, b: Mark) -> Mark
    ensures { IsHigher a b result }
{
    if a.place < b.place { b } else { a }
}

/// A reach with one more mark.
pub fn wider(best: Option<Stretch>, m: Mark) -> Stretch
    ensures { MatchOption best ((result.low ≡ m) × (result.high ≡ m)) (λ r. IsWider r m result) }
{
    match best {
        None => Stretch { low: m, high: m },
        Some(r) => Stretch {
            low: lower(r.low, m),
            high: higher(r.high, m),
        },
    }
}
