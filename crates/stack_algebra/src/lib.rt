//! Whole numbers, sums, fractions in lowest terms, ordered fields and rows of a table: laws only.
#![tactic(auto)]

mod laws;

pub use laws::{
    divisor_law, fraction_laws, polynomial_law, sum_laws, tableau_laws, whole_number_laws,
};
