//! What a model is made of.

use stack_polygon::Point;

/// A material: its weight per unit of area, 0 to 1,000,000, and its coefficient of friction, `p` over `q`,
/// with `p` from 0 to 1,000 and `q` from 1 to 1,000.
#[derive(Clone, Copy, Debug, PartialEq, Eq)]
pub struct Material {
    pub weight: i64,
    pub p: i64,
    pub q: i64,
}

/// A joint between the materials with these numbers, in either order, and their coefficient of friction, `p` over
/// `q`, with `p` from 0 to 1,000 and `q` from 1 to 1,000.
#[derive(Clone, Copy, Debug, PartialEq, Eq)]
pub struct Joint {
    pub first: usize,
    pub second: usize,
    pub p: i64,
    pub q: i64,
}

/// A body: the number of its material, from 0, and whether it is fixed.
#[derive(Clone, Copy, Debug, PartialEq, Eq)]
pub struct Body {
    pub material: usize,
    pub fixed: bool,
}

/// A load on the body with this number: dead or live, its point, and its force, to the right and upwards.
#[derive(Clone, Copy, Debug, PartialEq, Eq)]
pub struct Load {
    pub body: usize,
    pub live: bool,
    pub at: Point,
    pub fx: i64,
    pub fy: i64,
}
