//! Structures of one stone, as the pieces of their model files.

use stack_contact::{Bearing, Survey, survey};
use stack_frame::{Cone, frame_of};
use stack_model::Model;
use stack_polygon::Point;
use stack_reader::read_model;
use std::alloc::Global;

pub const STONE: &str = "[[material]]\nname = 'stone'\nweight = 1\nfriction = [1, 1]\n";

/// A stone that slides sooner.
pub const SMOOTH: &str = "[[material]]\nname = 'stone'\nweight = 1\nfriction = [2, 4]\n";

/// The ground, from (-10, -1) to (10, 0).
pub const GROUND: &str = "[[block]]\nname = 'ground'\nmaterial = 'stone'\nfixed = true\n\
    corners = [[-10, -1], [10, -1], [10, 0], [-10, 0]]\n";

/// A post, 2 wide and 4 high. It weighs 48 sixths.
pub const POST: &str = "[[block]]\nname = 'post'\nmaterial = 'stone'\n\
    corners = [[0, 0], [2, 0], [2, 4], [0, 4]]\n";

/// A load to the right at the post's upper left corner.
pub const PUSH: &str = "[[load]]\nblock = 'post'\nkind = 'live'\nat = [0, 4]\nforce = [1, 0]\n";

pub fn at(x: i64, y: i64) -> Point {
    Point { x, y }
}

/// A bearing on a level face.
pub fn bearing(first: usize, second: usize, at: Point, cone: Cone) -> Bearing {
    Bearing {
        first,
        second,
        at,
        frame: frame_of(1, 0),
        cone,
    }
}

/// The model whose file has these pieces.
pub fn model_of(alloc: Global, pieces: &[&str]) -> Option<Model> {
    let text = pieces.concat(alloc).ok()?;
    read_model(alloc, text.as_bytes()).ok()
}

/// The survey of the structure whose model file has these pieces.
pub fn surveyed(alloc: Global, pieces: &[&str]) -> Option<Survey> {
    let model = model_of(alloc, pieces)?;
    survey(alloc, model).ok()
}
