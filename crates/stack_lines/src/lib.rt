//! What the program says: its statuses, the lines of its refusals, and the texts of its answers.
//!
//! ```text
//! Verdict::Denied.status() // 1
//! Refusal::CertificateLine { number: 3 }.status() // 6; its line is "certificate line 3"
//! rejection(alloc, &survey, Part::First, Reason::Push { k: 0 })? // "rejected first push 1", with a line feed
//! ```
#![tactic(auto)]

mod answer;
mod model_lines;
mod refusal;

pub use answer::{Answer, Verdict, rejection, wide_place};
pub use refusal::{Input, Place, ReachPlace, Refusal, Within};
