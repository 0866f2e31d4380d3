//! Building in stages: the stages of an order of building, and the first of them that collapses.
//!
//! ```text
//! let order = read_order(alloc, survey.model(), b"post\nlintel\n")?; // the post first, and the lintel on it
//! match stages(alloc, &survey, order.as_slice(), 1000)? {
//!     Stages::AllStand(forces) => forces.len() == 2, // those of each stage
//!     Stages::Falls { before, motion } => before.len() < 2, // those of the stages before the one that falls
//! }
//! ```
#![tactic(auto)]

mod judging;
mod laws;
mod stage;
mod text;
mod types;

pub use judging::stages;
pub use laws::stages_laws;
pub use stack_orders::{OrderError, read_order};
pub use stage::stage_of;
pub use text::write_stages;
pub use types::{Outcome, Stages, StagesError};
