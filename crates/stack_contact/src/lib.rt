//! The contacts of a structure: where its bodies bear on one another, and where they only touch.
//!
//! Calls that are given no allocator take no memory.
//!
//! ```text
//! let survey = survey(alloc, model)?; // a post 2 wide and 4 high on the ground
//! survey.bearings().len() == 2 // at the ends of its foot
//! survey.touches().len() == 0
//! ```
#![tactic(auto)]

mod laws;
mod lists;
mod pair;
mod surveying;
mod sweeping;
mod types;

pub use laws::{friction_law, one_survey};
pub use pair::contacts;
pub use surveying::{survey, survey_again, survey_of};
pub use types::{Bearing, Contacts, Survey, SurveyError, Touch};
