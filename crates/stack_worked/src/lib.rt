//! Small structures worked by hand, and which certificates are true and which are false of them: laws only. They show
//! that the definitions of statics say what they should.
#![tactic(auto)]

mod laws;

pub use laws::{drawn_post_law, worked_factors, worked_files, worked_scenes};
