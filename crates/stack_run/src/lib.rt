//! The written run of a problem, and the numbers of its ends: definitions, and laws. A wider run is the same; each of
//! the four ends says what it means for the problem; and no run goes in circles, so that a budget always suffices. And
//! how a call answers it: the pivots done and left, how a phase stops, and where a run is too wide.
//!
//! A run turns its table in three phases up to an end. From what every turn keeps follows, of each end, what its
//! last table says of the problem: that nothing balances, that its values do, that no greater factor is carried,
//! or that the factor rises without limit. By Bland's rule no set of basic columns recurs within a phase. So a phase
//! has fewer pivots than there are sets of columns, and a budget that is great enough is never spent.
//!
//! ```text
//! use stack_run::wider_run_law;
//!
//! wider_run_law(); // a run that is nowhere too wide at 64 bits is the run at 128 bits
//! ```
#![tactic(auto)]

mod circle_laws;
mod end_laws;
mod laws;
mod pivots;
mod place;
mod stops;

pub use circle_laws::{budget_law, circles_law};
pub use end_laws::{leaving_law, run_laws};
pub use laws::wider_run_law;
pub use pivots::Pivots;
pub use place::RunPlace;
pub use stops::{PhaseEnd, Turn};
