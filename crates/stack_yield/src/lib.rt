//! The region of two live loads: how far they can be raised in given directions, and what forbids more.
//!
//! ```text
//! let (i, j) = pair(survey.model(), 1, 2)?; // the first two loads of the file
//! let dirs = read_directions(alloc, b"dir 1 0\ndir 1 1\n")?;
//! match region(alloc, &survey, i, j, dirs.as_slice(), 20_000)? {
//!     Region::Points(reaches) => .., // of each direction the point that it reaches and the half-plane that bounds it
//!     Region::Collapses(motion) => .., // the dead loads fall by themselves
//! }
//! ```
#![tactic(auto)]

mod gathering;
mod judging;
mod laws;
mod text;
mod types;

pub use gathering::region;
pub use laws::directions_laws;
pub use stack_directions::{DirectionsError, LoadPair, NoPair, directed, pair, read_directions};
pub use text::write_region;
pub use types::{Reach, Region, RegionError, RegionPlace};
