//! How phases and turns stop where nothing is refused.

use crate::pivots::Pivots;

/// How a phase stops where nothing is refused.
pub enum PhaseEnd {
    /// No column enters.
    Complete(Pivots),
    /// The column enters, and no row leaves.
    Unlimited(usize),
}

/// What a turn does where nothing is refused.
pub enum Turn {
    Stops(PhaseEnd),
    /// A pivot is done.
    GoesOn(Pivots),
}
