//! Stacks and walls that the field knows, as models.
//!
//! All bricks are named `b1`, `b2` and so on, by rows from the bottom and in each row from the left. The fixed body is
//! first. Corner lists begin at the lower left and go counter-clockwise.
//!
//! ```text
//! let model = harmonic(alloc, 3)?; // a table and three bricks, of which the top one reaches 11/12 of a length
//! model.bodies() == 4
//! harmonic(alloc, 11) // Err(Size)
//! ```
#![tactic(auto)]

mod bricks;
mod error;
mod layers;
mod modelling;
mod parts;
mod stacks;
mod types;
mod walls;

pub use error::StackError;
pub use stacks::{harmonic, slab, triangle};
pub use walls::wall;
