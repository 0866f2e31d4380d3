//! Why a list of corners is no polygon.

/// Why a list of corners is no polygon: the first of these that applies.
#[derive(Clone, Copy, Debug, PartialEq, Eq)]
pub enum PolygonError {
    /// The number of corners isn't from 3 to 32.
    Corners,
    /// This corner, from 0, is the first with a coordinate outside -1,000,000 to 1,000,000.
    Range { corner: usize },
    /// Neither the list nor its reversal is strictly convex, and this edge, from 0, is the first of the list as
    /// it is written that doesn't have every other corner strictly left of it.
    NotConvex { edge: usize },
}
