//! The head of a model, and materials and bodies with their names, as a model keeps them.

use crate::types::{Body, Material};
use stack_polygon::Polygon;

/// The version of a file, and its sway.
#[derive(Clone, Copy, Debug)]
pub struct Head {
    pub version: i64,
    pub sway: (i64, i64),
}

/// A material with its name.
#[derive(Debug, Drop)]
pub struct KeptMaterial {
    pub name: String,
    pub material: Material,
}

/// A body with its name and its outline.
#[derive(Debug, Drop)]
pub struct KeptBody {
    pub name: String,
    pub body: Body,
    pub outline: Polygon,
}
