//! Statics of rigid blocks: what forces, motions and certificates mean, and the laws that tie them. After Livesley
//! (1978). A scene is bodies and bearings as numbers, so that these pages know no model, contact or text.
//!
//! ```text
//! use stack_statics::certificate_laws;
//!
//! certificate_laws(); // from here on a proof has what each true certificate says of factors
//! ```
#![tactic(auto)]

mod laws;
mod wrench;

pub use laws::{centroid_law, certificate_laws, share_law, sway_laws, virtual_work, weight_law};
pub use wrench::Wrench;
