//! The model of a structure of rigid blocks: materials, joints, bodies, loads and a sway.
//!
//! Calls that are given no allocator take no memory.
//!
//! ```text
//! let model = Model::new(alloc, parts)?; // a ground and a post, or the first fault of the parts
//! model.name(1) == "post"
//! model.polygon(1).corner(0) == Point { x: 0, y: 0 }
//! ```
#![tactic(auto)]

mod bodies;
mod content;
mod copying;
mod errors;
mod joints;
mod keeping;
mod kept;
mod laws;
mod limits;
mod listing;
mod loads;
mod materials;
mod model;
mod names;
mod outlines;
mod parting;
mod places;
mod raw;
mod types;

pub use errors::ModelError;
pub use keeping::{among, flag};
pub use laws::{joint_laws, part_law, taken_law};
pub use model::{Model, is_still};
pub use places::{Key, Spot, What};
pub use raw::{Parts, RawBlock, RawJoint, RawLoad, RawMaterial};
pub use types::{Body, Joint, Load, Material};
