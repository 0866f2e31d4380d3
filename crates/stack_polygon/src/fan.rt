//! Sums over the fan of triangles from the first corner.

ghost use Rattle.std.specs.Prelude.{◌≡◌, ◌≤◌, ◌+◌, ◌+ℤ◌, ◌*ℤ◌, length};
ghost use Rattle.stack_polygon.specs.Plane.{triangle_of};
ghost use Rattle.stack_polygon.specs.Limits.{IsNear, IsInRange, AreInRange};
ghost use Rattle.stack_polygon.specs.Area.{fan_of, moment_about_y_of, moment_about_x_of};
ghost use Rattle.stack_polygon.specs.Sizes.{IsThreeCoordinates, IsTwiceArea, IsWithin, AreTriangleSums};

use crate::point::Point;
use crate::turns::triangle;

/// Twice the area, and six times the first moments about the two axes.
#[derive(Clone, Copy)]
pub struct Sums {
    pub area: i128,
    pub about_y: i128,
    pub about_x: i128,
}

/// The sum of three coordinates.
fn three(x: i64, y: i64, z: i64) -> i64
    requires x { IsNear x }
    requires y { IsNear y }
    requires z { IsNear z }
    ensures value { result ≡ x +ℤ y +ℤ z }
    ensures size { IsThreeCoordinates result }
{
    x + y + z
}

/// Six times the moment of a triangle.
fn moment(area: i64, sum: i64) -> i128
    requires area { IsTwiceArea area }
    requires sum { IsThreeCoordinates sum }
    ensures value { result ≡ area *ℤ sum }
    ensures size { IsWithin 1 24000000000000000000 result }
{
    i128::from(area) * i128::from(sum)
}

/// The sums of one triangle.
fn of_triangle(o: Point, p: Point, q: Point) -> Sums
    requires o { IsInRange o }
    requires p { IsInRange p }
    requires q { IsInRange q }
    ensures area { result.area ≡ triangle_of o p q }
    ensures about_y { result.about_y ≡ moment_about_y_of o p q }
    ensures about_x { result.about_x ≡ moment_about_x_of o p q }
    ensures size { AreTriangleSums 1 result }
{
    let area = triangle(o, p, q);
    Sums {
        area: i128::from(area),
        about_y: moment(area, three(o.x, p.x, q.x)),
        about_x: moment(area, three(o.y, p.y, q.y)),
    }
}

/// Two sums together, of at most 32 triangles.
fn plus(a: Sums, b: Sums, count: usize) -> Sums
    requires count { count ≤ 32 }
    requires a { AreTriangleSums count a }
    requires b { AreTriangleSums 1 b }
    ensures area { result.area ≡ a.area +ℤ b.area }
    ensures about_y { result.about_y ≡ a.about_y +ℤ b.about_y }
    ensures about_x { result.about_x ≡ a.about_x +ℤ b.about_x }
    ensures size { AreTriangleSums (count + 1) result }
{
    Sums {
        area: a.area + b.area,
        about_y: a.about_y + b.about_y,
        about_x: a.about_x + b.about_x,
    }
}

/// The sums over the fan of triangles from the first corner.
pub fn fan(corners: &[Point]) -> Sums
    requires least { 3 ≤ length corners.now }
    requires most { length corners.now ≤ 32 }
    requires range { AreInRange corners.now }
    ensures area { result.area ≡ fan_of triangle_of corners.now }
    ensures about_y { result.about_y ≡ fan_of moment_about_y_of corners.now }
    ensures about_x { result.about_x ≡ fan_of moment_about_x_of corners.now }
    ensures size { AreTriangleSums 32 result }
{
    let mut sums = Sums {
        area: 0,
        about_y: 0,
        about_x: 0,
    };
    for i in 0..corners.len() - 2 {
        let one = of_triangle(corners[0], corners[i + 1], corners[i + 2]);
        sums = plus(sums, one, i);
    }
    sums
}
