//! Tests of reports, further reach and the program: tables as text, ranges, stages and regions of small structures, and
//! over devices in memory each form once, its words as the runtime gives them, and devices that fail.
#![tactic(auto)]

#[cfg(test)]
mod drawings;
#[cfg(test)]
mod program;
#[cfg(test)]
mod range;
#[cfg(test)]
mod region;
#[cfg(test)]
mod report;
#[cfg(test)]
mod stages;
