//! What is asked of a survey, and the numbers that are too wide.

pub use stack_statics::Wrench;

/// What a block's sum is along, or about.
#[derive(Clone, Copy, Debug, PartialEq, Eq)]
pub enum Axis {
    X,
    Y,
    /// The sum of moments.
    M,
}

/// Which loads are asked about.
#[derive(Clone, Copy, Debug, PartialEq, Eq)]
pub enum Question {
    /// The weights and the loads that always act.
    Dead,
    /// The loads that are raised by a factor.
    Live,
}

/// A number of a block's sum is more than 2^127 - 1 in size.
#[derive(Clone, Copy, Debug, PartialEq, Eq)]
pub struct SumWide {
    pub axis: Axis,
}

/// A number of the velocities at a bearing is more than 2^127 - 1 in size.
#[derive(Clone, Copy, Debug, PartialEq, Eq)]
pub struct VelocityWide;

/// A number of a power is more than 2^127 - 1 in size.
#[derive(Clone, Copy, Debug, PartialEq, Eq)]
pub struct PowerWide;
