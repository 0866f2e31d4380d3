//! Tests of numbers, the plane, models and files: fractions against plain arithmetic, polygons and cones worked by
//! hand, devices and their faults, models of parts and of text, and built-in stacks.
#![tactic(auto)]

#[cfg(test)]
mod frame;
#[cfg(test)]
mod model;
#[cfg(test)]
mod models;
#[cfg(test)]
mod outlines;
#[cfg(test)]
mod outside;
#[cfg(test)]
mod overhang;
#[cfg(test)]
mod overlap;
#[cfg(test)]
mod polygon;
#[cfg(test)]
mod rational;
#[cfg(test)]
mod reader;
#[cfg(test)]
mod whole;
