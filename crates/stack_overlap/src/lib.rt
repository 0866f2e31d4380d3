//! Edges that separate two strictly convex polygons, and the points that they have in common.
//!
//! Two polygons that an edge separates, with all of the other polygon on its outer side or on its line, have at
//! most a segment in common. Two whose spans of coordinates are apart have nothing in common.
//!
//! ```text
//! // A base from (0, 0) to (10, 2), and a block on it from (4, 2) to (14, 4).
//! let edge = separator(&base, &block)?; // edge 2 of the base, its upper one
//! common(&base, &block, edge) == Common::Segment { from: Point { x: 4, y: 2 }, to: Point { x: 10, y: 2 } }
//! ```
#![tactic(auto)]

mod boxes;
mod marks;
mod separating;
mod shared;
mod types;

pub use boxes::apart;
pub use separating::separator;
pub use shared::common;
pub use types::{Common, Edge, Which};
