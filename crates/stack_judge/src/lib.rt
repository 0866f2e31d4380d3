//! The judgement of a survey: a true certificate of its question, or an exact refusal.
//!
//! ```text
//! match judge(alloc, &survey, Question::Live, 20_000)? {
//!     Certificate::Greatest(forces, motion) => .., // forces.factor / forces.scale is the greatest factor
//!     Certificate::Unbounded(base, ray) => ..,
//!     Certificate::Collapses(motion) => .., // the dead loads fall by themselves
//!     Certificate::Stands(_) => .., // never of this question
//! }
//! ```
#![tactic(auto)]

mod certifying;
mod judging;
mod laws;
mod narrow;
mod revised;
mod types;

pub use judging::{judge, judge_marked};
pub use laws::{columns_law, judgement_law};
pub use types::{JudgeError, JudgePlace};
