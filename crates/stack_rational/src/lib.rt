//! Exact fractions of 8, 64 and 128 bits.
//!
//! ```text
//! let half = Frac::<i128>::from_whole(1)?.quotient(Frac::from_whole(2)?)?; // by the trait `Exact`
//! half.sum(half)?.parts() == (1, 1)
//! common_scale(&[half]) == Ok(2)
//! ```
#![tactic(auto)]

mod common_divisor;
mod comparing;
mod exact;
mod frac;
mod halves;
mod integer;
mod laws;
mod of_wholes;
mod scale;

pub use exact::{Exact, Op, OpWide, OpWide as Wide};
pub use frac::Frac;
pub use halves::{divisor_of, divisor_of_words};
pub use integer::Integer;
pub use laws::{fraction_fitting_law, order_law, wider_law};
pub use of_wholes::{over, whole};
pub use scale::{ScaleWide, common_scale, scale_law};
