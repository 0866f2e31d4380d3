//! On which side of a line a point lies, and how far ahead.

ghost use Rattle.std.specs.Prelude.{◌≡◌, ◌*ℤ◌, ◌<◌};
ghost use Rattle.stack_polygon.specs.Plane.{triangle_of, advance_of};
ghost use Rattle.stack_algebra.specs.IntegerOrder.{signum};
ghost use Rattle.stack_algebra.specs.Search.{next_round};
ghost use Rattle.stack_polygon.specs.Limits.{IsInRange};
ghost use Rattle.stack_polygon.specs.Sizes.{IsStep, IsSquare, IsTwiceArea};

use crate::point::Point;

/// The product of two differences of coordinates.
fn product(x: i64, y: i64) -> i64
    requires x { IsStep x }
    requires y { IsStep y }
    ensures value { result ≡ x *ℤ y }
    ensures size { IsSquare result }
{
    x * y
}

/// Twice the area of the triangle `o`, `p`, `q`, positive where `q` lies left of the line from `o` to `p`.
pub fn triangle(o: Point, p: Point, q: Point) -> i64
    requires o { IsInRange o }
    requires p { IsInRange p }
    requires q { IsInRange q }
    ensures value { result ≡ triangle_of o p q }
    ensures size { IsTwiceArea result }
{
    product(p.x - o.x, q.y - o.y) - product(p.y - o.y, q.x - o.x)
}

/// How far `q` lies ahead of `o` on the way to `p`, times the distance of `o` and `p`. Takes no memory.
pub fn advance(o: Point, p: Point, q: Point) -> i64
    requires o { IsInRange o }
    requires p { IsInRange p }
    requires q { IsInRange q }
    ensures { result ≡ advance_of o p q }
{
    product(p.x - o.x, q.x - o.x) + product(p.y - o.y, q.y - o.y)
}

/// 1 for a positive number, 0 for 0, -1 for a negative one.
pub fn sign(turn: i64) -> i32
    ensures { result ≡ signum turn }
{
    if turn > 0 {
        1
    } else if turn < 0 {
        -1
    } else {
        0
    }
}

/// The number after `i`, of `n` in a circle.
pub fn next(n: usize, i: usize) -> usize
    requires { i < n }
    ensures { result ≡ next_round n i }
{
    if i + 1 == n { 0 } else { i + 1 }
}
