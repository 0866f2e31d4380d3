//! The whole range of factors of both signs that a structure carries, each end judged on its own side.
//!
//! ```text
//! match range(alloc, &survey, 20_000)? {
//!     Range::Between { least, greatest } => .., // each a factor with forces and a motion, or unlimited
//!     Range::Collapses(motion) => .., // the dead loads fall by themselves
//! }
//! ```
#![tactic(auto)]

mod laws;
mod ranging;
mod reversing;
mod text;
mod types;

pub use laws::range_laws;
pub use ranging::range;
pub use reversing::other_side;
pub use text::write_range;
pub use types::{End, Range, RangeError, Side};
