//! Whole numbers of at most 2^127 - 1 in size, their checked operations, and limits and a test that several crates
//! share.
//!
//! No call takes memory.
//!
//! ```text
//! let seven = Whole { value: 7 };
//! seven.product(seven) == Ok(Whole { value: 49 })
//! Whole { value: i128::MAX }.sum(seven) == Err(Wide)
//! ```
#![tactic(auto)]

mod decimal;
mod demands;
mod laws;
mod limits;
mod whole;

pub use decimal::Decimal;
pub use demands::unless;
pub use laws::fitting_law;
pub use limits::{GREATEST_WEIGHT, MOST_BEARINGS, MOST_CONTACT_COLUMNS, MOST_FREE, MOST_ROWS};
pub use whole::{Whole, Wide};
