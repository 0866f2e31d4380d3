//! The problem of a survey: its rows are sums of free blocks, its columns the edges of cones. And the equations of free
//! blocks in amounts of cone edges: what solves them is forces, and numbers of the sums that no edge opposes are a
//! motion.
//!
//! ```text
//! let problem = pose(alloc, &survey, Question::Live)?; // of a post on the ground with a live load
//! problem.rows == 3 // along x, along y, of moments
//! problem.contact.len() == 4 // two edges of a cone at each of two bearings
//! ```
#![tactic(auto)]

mod entries;
mod equation_laws;
mod laws;
mod posing;

pub use equation_laws::{edge_laws, free_body_laws, motion_laws, solution_laws};
pub use laws::survey_law;
pub use posing::pose;
