//! The table of a revised run: the inverse of its basis in whole numbers, from which the plain columns are made.
//!
//! Each row of the table is kept as whole numbers over one denominator: its multipliers and the right side. The
//! multipliers of the first rows are its numbers in the artificial columns, and make the inverse of the basis; two more
//! are those of the rows of costs, which stand below the first rows. A number of a plain column is made from these when
//! it is needed. After the revised simplex method of Dantzig and Orchard-Hays (1954).
//!
//! A call may give up, with None or `Unsettled`. No clause says when, but each call says when that is likely. It says
//! nothing about the written run. All other answers are exact.
//!
//! ```text
//! let mut table = RevisedTable::of_problem(alloc, &problem)?; // the written table
//! table.enter(column) == Some(()); // the numbers of the column are made and kept
//! table.pivot(row, column)?; // the table after the pivot, or the first operation that is too wide
//! ```
#![tactic(auto)]

mod bounding;
mod building;
mod columns;
mod filling;
mod first;
mod making;
mod marking;
mod marks;
mod objective;
mod pivoting;
mod reducing;
mod revised_table;
mod row;
mod spots;
mod stops;
mod to_visit;

pub use revised_table::RevisedTable;
pub use spots::cell;
pub use stops::NoTable;
