//! The sums of statics over a survey: forces on blocks, velocities, openings and powers, in the written order.
//!
//! ```text
//! // A post 2 wide and 4 high, its upper left corner pushed to the right with one unit of force.
//! dead(&survey, 0) == Wrench { fx: 0, fy: -48, m: -48 }
//! live(&survey, 0) == Wrench { fx: 6, fy: 0, m: -24 }
//! residue(&survey, &forces, 0)? // all 0 where the forces balance the post
//! ```
#![tactic(auto)]

mod block;
mod columns;
mod force;
mod loads;
mod openings;
mod powers;
mod residues;
mod sums;
mod surveys;
mod sway;
mod types;
mod velocity;
mod weight;

pub use block::{Push, push_of};
pub use columns::column;
pub use force::Force;
pub use loads::{dead, live};
pub use openings::opening;
pub use powers::power;
pub use residues::residue;
pub use stack_statics::{
    centroid_law, certificate_laws, share_law, sway_laws, virtual_work, weight_law,
};
pub use sums::bearing_force;
pub use surveys::{proper, written_laws};
pub use types::{Axis, PowerWide, Question, SumWide, VelocityWide, Wrench};
pub use velocity::Gap;
