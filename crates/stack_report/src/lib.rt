//! Tables of a survey and of a certificate, as text.
//!
//! ```text
//! contact_table(alloc, &survey)? // "bearings 2\nbearing 1 ground post 0 0 ..", the bytes that `contacts` prints
//! force_table(alloc, &survey, &certificate)? // the forces of an accepted certificate, as fractions
//! ```
#![tactic(auto)]

mod contacts;
mod errors;
mod force_lines;
mod forces;
mod lines;
mod ratio;
mod summary;

pub use contacts::contact_table;
pub use errors::ReportError;
pub use forces::force_table;
pub use lines::number;
pub use ratio::{Ratio, lowest_terms};
pub use summary::sample_summary;
