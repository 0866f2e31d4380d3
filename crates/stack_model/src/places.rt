//! Where a model's parts can have a fault.

/// Where: at the top of a file, or in an item, numbered from 0.
#[derive(Clone, Copy, Debug, PartialEq, Eq)]
pub enum Spot {
    Top,
    Material(usize),
    Joint(usize),
    Block(usize),
    Load(usize),
}

/// Of what there are too many.
#[derive(Clone, Copy, Debug, PartialEq, Eq)]
pub enum What {
    Materials,
    Joints,
    Blocks,
    Free,
    Fixed,
    Loads,
}

/// A key of an item, or of the top of a file.
#[derive(Clone, Copy, Debug, PartialEq, Eq)]
pub enum Key {
    Version,
    Sway,
    Name,
    Weight,
    Friction,
    Material,
    Joint,
    First,
    Second,
    Fixed,
    Corners,
    Block,
    Kind,
    At,
    Force,
    Load,
}
