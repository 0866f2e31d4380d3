//! Points and strictly convex polygons with whole coordinates.
//!
//! A `Polygon` is seen as the list of its corners: 3 to 32 of them, counter-clockwise, each strictly left of
//! every edge that it isn't an end of, with coordinates from -1,000,000 to 1,000,000.
//!
//! ```text
//! // Drawn clockwise: it is kept counter-clockwise, from the same first corner.
//! let post = Polygon::new(corners)?; // (0, 0), (0, 4), (2, 4), (2, 0)
//! post.corner(1) == Point { x: 2, y: 0 }
//! post.twice_area() == 16
//! ```
#![tactic(auto)]

mod errors;
mod fan;
mod laws;
mod lists;
mod point;
mod polygon;
mod spans;
mod turns;

pub use errors::PolygonError;
pub use laws::convexity_by_test;
pub use point::{Point, Span};
pub use polygon::Polygon;
pub use turns::{advance, next, triangle};
