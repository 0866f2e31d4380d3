//! Strictly convex polygons.

ghost use Rattle.std.specs.Prelude.{◌≡◌, ◌<◌, length, IfOk, MatchResult};
ghost use Rattle.stack_algebra.specs.IntegerOrder.{signum};
ghost use Rattle.stack_polygon.specs.Admission.{polygon_of, IsAdmittedAs, IsRefusedAs};
ghost use Rattle.stack_polygon.specs.Corners.{corner_of, side_of};
ghost use Rattle.stack_polygon.specs.Limits.{IsInRange, IsPolygon};
ghost use Rattle.stack_polygon.specs.Area.{twice_area_of, six_moments_of};
ghost use Rattle.stack_polygon.specs.Sizes.{IsWithin};
ghost use Rattle.stack_polygon.specs.Spans.{IsSpanOf};

use crate::errors::PolygonError;
use crate::fan::fan;
use crate::lists::{first_far, first_unclear, reverse};
use crate::point::{Point, Span};
use crate::spans::span_of;
use crate::turns::{next, sign, triangle};
use std::alloc::{AllocError, Global};
use std::marker::Model;

/// Three to 32 corners, counter-clockwise, each strictly left of every edge that it isn't an end of.
#[derive(Debug, Drop)]
pub struct Polygon {
    corners: Vec<Point>,
}

impl Model for Polygon {
    ghost use mathlib.Core.List.{List};
    ghost use Rattle.stack_polygon.specs.declared.point.Point.{Point};
    ghost use Rattle.stack_polygon.specs.Limits.{IsPolygon};

    ghost Value = { List Point };

    ghost view = { λ p. p.corners.items };

    ghost invariant = { λ p. IsPolygon p.corners.items };
}

impl Polygon {
    /// The polygon with these corners, which may go round it either way: a list that isn't strictly convex is
    /// reversed in place, and its first corner stays first. Strictly convex means that for each edge every
    /// other corner, by its place in the list, lies strictly left of it. Refused are, in this order: a number
    /// of corners that isn't from 3 to 32, a coordinate outside -1,000,000 to 1,000,000, and a list that is
    /// strictly convex neither as it is written nor reversed. Takes no memory.
    pub fn new(mut corners: Vec<Point>) -> Result<Polygon, PolygonError>
        ensures value { result ≡ polygon_of corners.items }
        ensures meaning { MatchResult result (λ ps. IsAdmittedAs corners.items ps) (λ e. IsRefusedAs corners.items e) }
        ensures polygon { IfOk result (λ ps. IsPolygon ps) }
    {
        if corners.len() < 3 || corners.len() > 32 {
            return Err(PolygonError::Corners);
        }
        if let Some(corner) = first_far(&corners) {
            return Err(PolygonError::Range { corner });
        }
        match first_unclear(&corners) {
            None => Ok(Polygon { corners }),
            Some(edge) => {
                reverse(&mut corners);
                match first_unclear(&corners) {
                    None => Ok(Polygon { corners }),
                    Some(_) => Err(PolygonError::NotConvex { edge }),
                }
            }
        }
    }

    /// The same polygon, kept once more. `AllocError` if memory ran out.
    pub fn again(&self, alloc: Global) -> Result<Polygon, AllocError>
        ensures { IfOk result (λ p. p ≡ self.now) }
    {
        let corners = Vec::from_slice(alloc, self.corners.as_slice())?;
        Ok(Polygon { corners })
    }

    /// A polygon has 3 to 32 corners in range and is strictly convex. Does nothing.
    pub fn valid(&self)
        ensures { IsPolygon self.now }
    {
        // What the type keeps is known once a field is named.
        let _ = &self.corners;
    }

    /// The number of corners, 3 to 32.
    pub fn len(&self) -> usize
        ensures value { result ≡ length self.now }
        ensures polygon { IsPolygon self.now }
    {
        self.corners.len()
    }

    /// Corner `i`.
    pub fn corner(&self, i: usize) -> Point
        requires { i < length self.now }
        ensures value { result ≡ corner_of self.now i }
        ensures range { IsInRange result }
    {
        self.corners[i]
    }

    /// On which side of edge `i`, from corner `i` to the next one, the point lies: 1 on the left, 0 on the
    /// edge's line, -1 on the right. Takes no memory.
    pub fn side(&self, i: usize, at: Point) -> i32
        requires index { i < length self.now }
        requires range { IsInRange at }
        ensures { result ≡ signum (side_of self.now i at) }
    {
        let end = next(self.len(), i);
        sign(triangle(self.corner(i), self.corner(end), at))
    }

    /// The least and the greatest coordinates: each corner lies within, and each bound is a corner's. Takes no
    /// memory.
    pub fn span(&self) -> Span
        ensures span { IsSpanOf self.now result }
        ensures polygon { IsPolygon self.now }
    {
        span_of(&self.corners)
    }

    /// Twice the area, in squares of the grid's unit; positive. Takes no memory.
    pub fn twice_area(&self) -> i128
        ensures value { result ≡ twice_area_of self.now }
        ensures size { IsWithin 32 8000000000000 result }
    {
        fan(&self.corners).area
    }

    /// Six times the first moments, about the y axis and about the x axis. Takes no memory.
    pub fn six_moments(&self) -> (i128, i128)
        ensures value { result ≡ six_moments_of self.now }
        ensures about_y { IsWithin 32 24000000000000000000 result.0 }
        ensures about_x { IsWithin 32 24000000000000000000 result.1 }
    {
        let sums = fan(&self.corners);
        (sums.about_y, sums.about_x)
    }
}
