//! What a run says, in plain words, and that it follows from the order of work: definitions and laws only. The top call
//! of the program has this as its clause.
#![tactic(auto)]

mod laws;

pub use laws::{
    accepted_is_true_of_files, accepted_models_are_proper, goes_on_with_accepted_models,
    printed_is_accepted, words_have_one_end,
};
