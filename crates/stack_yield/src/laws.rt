//! The laws of the outcome of directions, each a clause of a function that does nothing.

ghost use Rattle.stack_yield.specs.ByDirections.{OutcomesAreByDirections, DirectionsAreDecided};

/// The outcome of all directions is that of the first one that has no reach, or that each has one. Conversely, such a
/// first direction, or that each has a reach, decides the outcome of all.
pub fn directions_laws()
    ensures by_directions { OutcomesAreByDirections }
    ensures decided { DirectionsAreDecided }
{}
