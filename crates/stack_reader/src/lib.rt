//! The model's TOML file: read to the model that it describes or to its first fault, and written.
//!
//! ```text
//! let model = read_model(alloc, bytes)?; // the bytes of a model's file
//! let again = write_model(alloc, &model)?; // a document that is read to the same model
//! ```
#![tactic(auto)]

mod errors;
mod field;
mod head;
mod keys;
mod list;
mod reading;
mod shape;
mod tables;
mod writing;

pub use errors::ReadError;
pub use keys::word;
pub use reading::read_model;
pub use writing::write_model;
