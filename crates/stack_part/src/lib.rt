//! A part of a structure: some of its bodies, with the loads on them and the contacts between them.
//!
//! ```text
//! let survey = survey(alloc, model)?; // a post on the ground, and a second post on the first
//! let below = survey_part(alloc, &survey, &[true, true, false])?; // without the second post
//! below.bearings().len() == 2 // at the ends of the foot of the first
//! ```
#![tactic(auto)]

mod contacts;
mod laws;
mod models;
mod surveys;

pub use laws::part_laws;
pub use models::part;
pub use surveys::survey_part;
