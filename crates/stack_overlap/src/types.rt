//! Edges of a pair of polygons, and what the two have in common.

use stack_polygon::Point;

/// One of two polygons.
#[derive(Clone, Copy, Debug, PartialEq, Eq)]
pub enum Which {
    First,
    Second,
}

/// An edge of one of two polygons: from corner `index` to the next one.
#[derive(Clone, Copy, Debug, PartialEq, Eq)]
pub struct Edge {
    pub which: Which,
    pub index: usize,
}

/// The common points of two polygons that an edge separates.
#[derive(Clone, Copy, Debug, PartialEq, Eq)]
pub enum Common {
    /// There are none.
    Nothing,
    /// One point, which is a corner of both.
    Corner(Point),
    /// One point, which is a corner of one of the two and lies strictly within an edge of the other.
    OnEdge { at: Point, edge: Edge },
    /// A segment of positive length; `from` comes before `to` by x, then y.
    Segment { from: Point, to: Point },
}
