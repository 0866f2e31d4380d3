//! Points with whole coordinates, and the spans of coordinates.

/// A point of the drawing, in units of its grid.
#[derive(Clone, Copy, Debug, PartialEq, Eq)]
pub struct Point {
    /// To the right.
    pub x: i64,
    /// Upwards.
    pub y: i64,
}

/// From the least to the greatest coordinates: the points with `x0 <= x <= x1` and `y0 <= y <= y1`, none where a
/// bound is less than the one that it goes with.
#[derive(Clone, Copy, Debug, PartialEq, Eq)]
pub struct Span {
    /// The least x.
    pub x0: i64,
    /// The least y.
    pub y0: i64,
    /// The greatest x.
    pub x1: i64,
    /// The greatest y.
    pub y1: i64,
}
