//! The revised simplex run: the written run by the artificial columns of its table alone, in whole numbers.
//!
//! The table is kept as the inverse of its basis (stack_inverse). After the revised simplex method of Dantzig and
//! Orchard-Hays (1954).
//!
//! ```text
//! match run_revised(alloc, &problem, budget) {
//!     Ok(end) => .., // the end of the written run at 128 bits, with its last table
//!     Err(RevisedStop::TooWide(place)) => .., // its first number that is too wide
//!     Err(RevisedStop::Spent) => .., // the written run is over its budget
//!     Err(RevisedStop::Unsettled) => .., // it was given up: this says nothing, and no clause says when it happens
//!     Err(RevisedStop::Memory) => ..,
//! }
//! ```
#![tactic(auto)]

mod last;
mod read;
mod reading;
mod running;
mod stops;
mod tableau;

pub use last::Last;
pub use running::run_revised;
pub use stops::RevisedStop;
