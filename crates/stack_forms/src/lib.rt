//! The forms of words: the work on each, in its order, and the functions that do it.
//!
//! ```text
//! let form = Form::Contacts { model: "arch.toml" };
//! answer_form(alloc, form, &mut shelf) // the table of its contacts, or the first step that refuses
//! ```
#![tactic(auto)]

mod forms;
mod reading;
mod surveying;

pub use forms::answer_form;
pub use stack_work::{DEFAULT_BUDGET, Form, Kind};
