//! Rows of whole numbers over one denominator, as words of 64 bits or as numbers of 128 bits: what a pivot does to
//! them.
//!
//! An answer that is there is exact. A call may also give up, with None: where a number that it makes doesn't fit, and
//! likely nowhere else. No clause says when, so that a run over such rows may say nothing of the written run.
//!
//! ```text
//! pivot.divide(&row, number) == Some(()) // the row of the pivot, over its number in the pivot's column
//! row.take(&pivot, factors) == Some(()) // another row, from which a multiple of it is taken
//! ```
#![tactic(auto)]

mod divider;
mod entries;
mod factors;
mod guesses;
mod keeping;
mod marks;
mod pivot;
mod pivots;
mod ratios;
mod remaking;
mod row;
mod row_steps;
mod rows;
mod stepping;
mod steps;
mod sums;
mod taking;
mod ways;
mod words;

pub use divider::Divider;
pub use entries::Entries;
pub use factors::{Factors, factors_of, step_fits};
pub use marks::Marks;
pub use pivot::Pivot;
pub use ratios::{Ratios, compare};
pub use remaking::{Cells, remake_row};
pub use row::Row;
pub use ways::SmallStep;
pub use words::{SMALL, product, product_of, size_product, whole_product, word};
