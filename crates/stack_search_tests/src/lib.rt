//! Tests of the search: tables, choices, runs at each width, the problems of structures, and what their ends give.
#![tactic(auto)]

#[cfg(test)]
mod bland;
#[cfg(test)]
mod drawings;
#[cfg(test)]
mod extract;
#[cfg(test)]
mod judge;
#[cfg(test)]
mod posing;
#[cfg(test)]
mod problems;
#[cfg(test)]
mod revised;
#[cfg(test)]
mod settled;
#[cfg(test)]
mod simplex;
#[cfg(test)]
mod table;
