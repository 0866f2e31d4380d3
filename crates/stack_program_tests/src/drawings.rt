//! Structures of one stone, as the pieces of their model files.

use stack_contact::{Survey, survey};
use stack_reader::read_model;
use std::alloc::Global;

pub const SWAY: &str = "version = 2\nsway = [1, -2]\n";

pub const STONE: &str = "[[material]]\nname = 'stone'\nweight = 1\nfriction = [1, 1]\n";

/// The ground, from (-10, -1) to (10, 0).
pub const GROUND: &str = "[[block]]\nname = 'ground'\nmaterial = 'stone'\nfixed = true\n\
    corners = [[-10, -1], [10, -1], [10, 0], [-10, 0]]\n";

/// The ground one unit lower.
pub const LOW_GROUND: &str = "[[block]]\nname = 'ground'\nmaterial = 'stone'\nfixed = true\n\
    corners = [[-10, -2], [10, -2], [10, -1], [-10, -1]]\n";

/// A post, 2 wide and 4 high.
pub const POST: &str = "[[block]]\nname = 'post'\nmaterial = 'stone'\n\
    corners = [[0, 0], [2, 0], [2, 4], [0, 4]]\n";

/// A load to the right at the post's upper left corner.
pub const PUSH: &str = "[[load]]\nblock = 'post'\nkind = 'live'\nat = [0, 4]\nforce = [1, 0]\n";

/// A load downwards in the middle of the post's head.
pub const PRESSURE: &str =
    "[[load]]\nblock = 'post'\nkind = 'live'\nat = [1, 4]\nforce = [0, -1]\n";

pub const STANDING: &[&str] = &[STONE, GROUND, POST];

pub const PUSHED: &[&str] = &[STONE, GROUND, POST, PUSH];

/// On the ground `a` and `b`, side by side, and on them `c` and `d`.
pub const FOUR: &[&str] = &[
    "[[material]]\nname = 'stone'\nweight = 1\nfriction = [1, 2]\n",
    GROUND,
    "[[block]]\nname = 'a'\nmaterial = 'stone'\ncorners = [[0, 0], [2, 0], [2, 1], [0, 1]]\n",
    "[[block]]\nname = 'b'\nmaterial = 'stone'\ncorners = [[2, 0], [4, 0], [4, 1], [2, 1]]\n",
    "[[block]]\nname = 'c'\nmaterial = 'stone'\ncorners = [[0, 1], [2, 1], [2, 2], [0, 2]]\n",
    "[[block]]\nname = 'd'\nmaterial = 'stone'\ncorners = [[2, 1], [4, 1], [4, 2], [2, 2]]\n",
];

/// The survey of the structure whose model file has these pieces.
pub fn surveyed(alloc: Global, pieces: &[&str]) -> Option<Survey> {
    let text = pieces.concat(alloc).ok()?;
    let model = read_model(alloc, text.as_bytes()).ok()?;
    survey(alloc, model).ok()
}
