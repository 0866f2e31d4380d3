//! The forms of words, with the order of work on each, and which end each work comes to: definitions and laws, of which
//! no function is made here.
#![tactic(auto)]

mod form;

pub use form::{Asked, DEFAULT_BUDGET, Form, Kind};
