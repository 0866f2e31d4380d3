//! An order of building: a text that names free blocks, each once.
//!
//! ```text
//! let order = read_order(alloc, survey.model(), b"post\nlintel\n")?; // the post first, and the lintel on it
//! ```
#![tactic(auto)]

mod errors;
mod lines;
mod reading;

pub use errors::OrderError;
pub use reading::read_order;
