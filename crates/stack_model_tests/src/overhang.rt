//! Four models, their bricks and their names.

use stack_model::{Load, Material, Model};
use stack_overhang::{StackError, harmonic, slab, triangle, wall};
use stack_polygon::Point;
use std::alloc::Global;
use std::test::*;

/// A body, and the two corners of the rectangle that it is.
type Brick = (usize, Point, Point);

/// How many bodies a model has, some of them, and the name of one.
#[derive(Clone, Copy)]
struct Built {
    bodies: usize,
    bricks: &'static [Brick],
    named: usize,
    name: &'static str,
}

/// Three bricks reach eleven twelfths of a length.
const HARMONIC: Built = Built {
    bodies: 4,
    bricks: &[
        (
            0,
            Point {
                x: -10080,
                y: -1000,
            },
            Point { x: 0, y: 0 },
        ),
        (1, Point { x: -4200, y: 0 }, Point { x: 840, y: 1000 }),
        (2, Point { x: -2940, y: 1000 }, Point { x: 2100, y: 2000 }),
        (3, Point { x: -420, y: 2000 }, Point { x: 4620, y: 3000 }),
    ],
    named: 0,
    name: "table",
};

/// It stands on its point.
const TRIANGLE: Built = Built {
    bodies: 4,
    bricks: &[
        (0, Point { x: -20, y: -1 }, Point { x: 0, y: 0 }),
        (1, Point { x: -1, y: 0 }, Point { x: 1, y: 1 }),
        (2, Point { x: -2, y: 1 }, Point { x: 0, y: 2 }),
        (3, Point { x: 0, y: 1 }, Point { x: 2, y: 2 }),
    ],
    named: 0,
    name: "table",
};

/// A slab of depth three has eleven bricks.
const SLAB: Built = Built {
    bodies: 12,
    bricks: &[
        (6, Point { x: 1, y: 2 }, Point { x: 3, y: 3 }),
        (7, Point { x: -2, y: 3 }, Point { x: 0, y: 4 }),
        (9, Point { x: -3, y: 4 }, Point { x: -1, y: 5 }),
    ],
    named: 11,
    name: "b11",
};

/// The first wall has two courses of two bricks.
const WALL: Built = Built {
    bodies: 5,
    bricks: &[
        (0, Point { x: -1000, y: -10 }, Point { x: 1000, y: 0 }),
        (2, Point { x: 20, y: 0 }, Point { x: 40, y: 10 }),
        (3, Point { x: 10, y: 10 }, Point { x: 30, y: 20 }),
    ],
    named: 0,
    name: "ground",
};

/// Body `i` is the rectangle from one corner to the other.
fn spans(model: &Model, i: usize, low: Point, high: Point) -> bool {
    if i >= model.bodies() {
        return false;
    }
    let outline = model.polygon(i);
    if outline.len() != 4 {
        return false;
    }
    let right = Point {
        x: high.x,
        y: low.y,
    };
    let left = Point {
        x: low.x,
        y: high.y,
    };
    outline.corner(0) == low
        && outline.corner(1) == right
        && outline.corner(2) == high
        && outline.corner(3) == left
}

fn has(model: &Model, built: &Built) -> bool {
    for (i, low, high) in built.bricks {
        if !spans(model, *i, *low, *high) {
            return false;
        }
    }
    model.bodies() == built.bodies
        && built.named < built.bodies
        && model.name(built.named) == built.name
}

fn is_built(found: Result<Model, StackError>, built: &Built) -> bool {
    match found {
        Ok(model) => has(&model, built),
        Err(_) => false,
    }
}

#[test]
fn stacks_have_the_bricks_worked_by_hand(rt: HostRuntime) {
    let alloc = rt.alloc();
    let found = [
        is_built(harmonic(alloc, 3), &HARMONIC),
        is_built(triangle(alloc, 2), &TRIANGLE),
        is_built(slab(alloc, 3), &SLAB),
    ];
    assert!(rt; found == [true; 3]);
}

const STONE: Material = Material {
    weight: 1,
    p: 3,
    q: 10,
};

/// The load at the upper course.
const PUSH: Load = Load {
    body: 3,
    live: true,
    at: Point { x: 10, y: 20 },
    fx: 1,
    fy: 0,
};

/// Whether a model has this material, and this load alone.
fn is_pushed(model: &Model) -> bool {
    model.materials() > 0
        && model.loads() == 1
        && model.material(0) == STONE
        && model.load(0) == PUSH
}

fn first_wall(alloc: Global) -> [bool; 2] {
    match wall(alloc, 0) {
        Ok(model) => [has(&model, &WALL), is_pushed(&model)],
        Err(_) => [false; 2],
    }
}

#[test]
fn the_first_wall_is_pushed_at_its_upper_course(rt: HostRuntime) {
    assert!(rt; first_wall(rt.alloc()) == [true; 2]);
}

/// Whether there is no model of this size.
fn is_refused(found: Result<Model, StackError>) -> bool {
    found.err() == Some(StackError::Size)
}

#[test]
fn sizes_past_the_limits_are_refused(rt: HostRuntime) {
    let alloc = rt.alloc();
    let refusals = [
        is_refused(harmonic(alloc, 0)),
        is_refused(harmonic(alloc, 11)),
        is_refused(triangle(alloc, 11)),
        is_refused(slab(alloc, 7)),
        is_refused(wall(alloc, 1_000_000)),
    ];
    assert!(rt; refusals == [true; 5]);
}
