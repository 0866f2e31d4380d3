//! Forces with their moments.

/// A force and its moment, in sixths of a unit of force. The moment is about a body's first stored corner, and
/// positive counter-clockwise.
#[derive(Clone, Copy, Debug, PartialEq, Eq)]
pub struct Wrench {
    /// To the right.
    pub fx: i128,
    /// Upwards.
    pub fy: i128,
    pub m: i128,
}
