//! Bland's choices: the entering column and the leaving row.
//!
//! After Bland (1977): of the columns that may enter, and of the rows that may leave, the least is taken, so
//! that no basis comes twice. No call takes memory.
//!
//! ```text
//! entering(&table, among) == Some(column) // the least column whose objective cell is negative
//! leaving(&table, column)? == Some(row) // of the rows with the least ratio that of the least basic column
//! ```
#![tactic(auto)]

mod entering_column;
mod found;
mod leaving_row;
mod signs;

pub use entering_column::entering;
pub use found::Found;
pub use leaving_row::{RatioWide, leaving};
