//! Rectangles, rows of bricks and walls.

/// A rectangle with level and upright sides, by its least and its greatest coordinates.
#[derive(Clone, Copy)]
pub struct Rectangle {
    pub left: i64,
    pub bottom: i64,
    pub right: i64,
    pub top: i64,
}

/// Equal bricks side by side: where the first begins, their bottom, how many they are, how long and how high each is.
#[derive(Clone, Copy)]
pub struct BrickRow {
    pub left: i64,
    pub bottom: i64,
    pub count: u32,
    pub long: i64,
    pub high: i64,
}

/// A wall: how many courses it has and of how many bricks each, its coefficient of friction in tenths, and how far
/// the even courses are shifted.
#[derive(Clone, Copy)]
pub struct Wall {
    pub courses: u32,
    pub bricks: u32,
    pub tenths: u32,
    pub shift: u32,
}
