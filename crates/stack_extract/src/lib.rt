//! From the end of a run to the forces, the ray or the motion of its certificate, in whole numbers. From the fractions
//! of a last table come whole numbers, each end's lists at their common scale, and from these the certificate: laws say
//! that it is true.
//!
//! ```text
//! // The end of the run of a survey's problem; a post on the ground stands.
//! let forces = forces_of(alloc, &survey, &ended)?; // in whole numbers, or the first that is too wide
//! forces.factor == 0
//! ```
#![tactic(auto)]

mod end_laws;
mod forces;
mod motions;
mod numbers;
mod parts;
mod types;
mod wholes;

pub use end_laws::{certified_laws, end_law};
pub use forces::{forces_at, forces_of, kind_of, last_table, ray_at, ray_of};
pub use motions::{motion_at, motion_of};
pub use stack_posing::pose;
pub use types::{EndStep, ExtractError, ExtractPlace, Numbers};
