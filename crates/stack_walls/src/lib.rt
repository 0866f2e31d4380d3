//! Each built-in wall has a survey: no two of its bodies overlap, and its bearings aren't too many. Laws only.
#![tactic(auto)]

mod laws;

pub use laws::walls_can_be_surveyed;
