//! Two live loads of a model, the directions in which they are raised together, and the survey towards a direction.
//!
//! ```text
//! let (i, j) = pair(survey.model(), 1, 2)?; // the first two loads of the file
//! let dirs = read_directions(alloc, b"dir 1 0\ndir 1 1\n")?;
//! let survey = directed(alloc, &survey, i, j, 1, 1)?; // its live loads are these two
//! ```
#![tactic(auto)]

mod coordinates;
mod directing;
mod directions;
mod errors;
mod naming;

pub use coordinates::point;
pub use directing::{Towards, directed, survey_towards};
pub use directions::read_directions;
pub use errors::{DirectionsError, NoPair};
pub use naming::{LoadPair, pair};
