//! All faults of a model, each by its own property, and that the first of them is answered: laws only.
#![tactic(auto)]

mod laws;

pub use laws::{
    first_content_fault, first_file_fault, first_table_fault, outline_by_meaning, worked_faults,
};
