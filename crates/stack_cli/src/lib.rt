//! The program over any devices: its words after its own name, read as a form of words, and its top call, with the
//! theorem on it.
//!
//! `stand MODEL [PIVOTS]` and `load MODEL [PIVOTS]` judge the dead and the live loads of a model, and print a
//! certificate; `check MODEL CERT` checks one, and prints `accepted` or why it is rejected; `contacts MODEL` lists
//! where bodies bear and touch, `table MODEL CERT` also the forces of an accepted certificate; `stack KIND N`
//! prints a built-in stack, and `sample N` sums up the judgement of a built-in wall. `range MODEL [PIVOTS]` finds both
//! ends of the factors that are carried, `stages MODEL ORDER [PIVOTS]` the first stage of an order of building that
//! collapses, and `yield MODEL I J DIRS [PIVOTS]` what of two live loads is carried together.
#![tactic(auto)]

mod command;
mod given;
mod standard;
mod words;

pub use command::run;
pub use given::{Given, run_given};
pub use standard::{run_standard, words_given};
