//! The written check of a certificate: an independent judge of what others claim of a structure.
//!
//! ```text
//! check(&survey, &certificate) == Check::Accepted // then it is true of the survey
//! check(&survey, &other) == Check::Rejected { .. } // then it is false; the first test that fails is named
//! ```
#![tactic(auto)]

mod balance;
mod checking;
mod cones;
mod forces;
mod laws;
mod motions;
mod powers;
mod sign;
mod stop;
mod types;

pub use checking::check;
pub use laws::check_laws;
pub use types::{Check, CheckAt, CheckPlace, Part, Reason};
