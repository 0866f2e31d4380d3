//! Where a run is too wide.

use stack_table::Step;

/// The first operation that is too wide: in which phase, in which pivot of the run, counted from 1, and where.
#[derive(Clone, Copy, Debug, PartialEq, Eq, Drop)]
pub struct RunPlace {
    pub phase: u8,
    pub pivot: u64,
    pub row: usize,
    pub column: usize,
    pub step: Step,
}
