//! The simplex run over any table that answers what its phases ask: three phases to one of four ends. And what is asked
//! of the last table of a run, whatever stores it.
//!
//! ```text
//! match run_table(&mut table, budget) {
//!     Ok(kind) => .., // the end of the written run, whose last table is left
//!     Err(RunStop::TooWide(place)) => .., // its first number that is too wide
//!     Err(RunStop::Spent) => .., // the written run is over its budget
//!     Err(RunStop::Unsettled) => .., // says nothing; never returned by a table that never gives up
//! }
//! ```
#![tactic(auto)]

mod choices;
mod end_kind;
mod ended;
mod full;
mod last_table;
mod phases;
mod stops;
mod tableau;
mod turn;

pub use choices::{Chosen, LeavingRow};
pub use end_kind::EndKind;
pub use ended::Ended;
pub use last_table::LastTable;
pub use phases::run_table;
pub use stops::RunStop;
pub use tableau::Tableau;
