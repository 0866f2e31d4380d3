//! Points and polygons by their coordinates.

ghost use Rattle.std.specs.Prelude.{◌≡◌};

use stack_polygon::{Point, Polygon, PolygonError};
use std::alloc::Global;

pub fn at(x: i64, y: i64) -> Point
    ensures x { result.x ≡ x }
    ensures y { result.y ≡ y }
{
    Point { x, y }
}

/// What becomes of a list of corners.
pub fn outline(alloc: Global, corners: &[(i64, i64)]) -> Option<Result<Polygon, PolygonError>> {
    let mut points = Vec::new(alloc);
    for (x, y) in corners {
        points.push(at(*x, *y)).ok()?;
    }
    Some(Polygon::new(points))
}

/// The polygon with these corners.
pub fn polygon_of(alloc: Global, corners: &[(i64, i64)]) -> Option<Polygon> {
    outline(alloc, corners)?.ok()
}
