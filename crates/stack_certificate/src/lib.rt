//! Certificates and their text.
//!
//! Calls that are given no allocator take no memory.
//!
//! ```text
//! let certificate = read_certificate(alloc, b"stands\nforces 1 0\npush 24 0\npush 24 0\nend\n")?;
//! write_certificate(alloc, &certificate)? // the same bytes
//! ```
#![tactic(auto)]

mod laws;
mod line;
mod number;
mod reading;
mod split;
mod stage;
mod types;
mod writing;

pub use laws::{one_certificate, one_reading, one_text, short_text, spelled_by_digits};
pub use line::read_two;
pub use number::read_number;
pub use reading::{cut_line, read_certificate};
pub use split::{after, split_once};
pub use types::{Certificate, Forces, Motion, TextError};
pub use writing::write_certificate;
