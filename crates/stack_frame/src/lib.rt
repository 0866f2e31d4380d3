//! The frame of a joint, its tangent and its normal, and its cone of friction, each in lowest terms.
//!
//! No call takes memory.
//!
//! ```text
//! frame_of(6, -4) == Frame { tx: 3, ty: -2 }
//! frame_of(4, 3).normal() == (-3, 4)
//! cone_of(3, 4, 700, 1000) == Cone { p: 7, q: 10 }
//! ```
#![tactic(auto)]

mod cone;
mod divisor;
mod frame;
mod laws;

pub use cone::{Coefficient, Cone, cone_of};
pub use frame::{Frame, frame_of};
pub use laws::{one_cone, one_frame, wide_by_products};
pub use stack_whole::Wide as ConeWide;
