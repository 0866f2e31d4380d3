//! The numbers of the written sums, rates and powers, refused exactly if one is too wide: laws only.
#![tactic(auto)]

mod laws;

pub use laws::{
    fitting_list_law, power_number_laws, rate_number_laws, sum_number_laws, worked_numbers,
};
