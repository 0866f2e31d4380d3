//! The ranges that two rectangles with level and upright edges have in common determine their contacts: laws only. It
//! ties the definition of contacts for any polygons to the one that everybody knows for rectangles.
#![tactic(auto)]

mod laws;

pub use laws::rectangles_by_ranges;
