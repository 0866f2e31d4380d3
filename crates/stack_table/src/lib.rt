//! The exact table of a problem as one flat block of cells: built, pivoted, its objective rows.
//!
//! A problem is lent in columns of entries. `Table::build` writes its table and takes all memory of a run;
//! `Table::pivot` and the two objectives change it in place, and `Table::block` lends all cells at once.
//!
//! ```text
//! let mut table = Table::<Frac<i64>>::build(alloc, &problem)?; // the written table, with its artificial columns
//! table.pivot(row, column)?; // or the first operation that is too wide
//! ```
#![tactic(auto)]

mod building;
mod objective;
mod pivoting;
mod problem;
mod rows;
mod sound;
mod table;
mod types;

pub use objective::row_with;
pub use problem::{BuildError, Column, Entry, Problem};
pub use table::Table;
pub use types::{PivotWide, Step, TurnRefusal};
