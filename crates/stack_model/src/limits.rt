//! What values mean, where they are within their limits.

ghost use Rattle.std.specs.Prelude.{◌≡◌, IfOk, map, option_map};
ghost use Rattle.std.specs.List.{list_all};
ghost use Rattle.stack_polygon.specs.Limits.{is_near as is_near_of};
ghost use Rattle.stack_model.specs.Raw.{numbers_view};
ghost use Rattle.stack_model.specs.Limits.{is_name_byte as is_name_byte_of, is_name as is_name_of};
ghost use Rattle.stack_model.specs.Limits.{is_between as is_between_of, friction_of, point_of, points_of};
ghost use Rattle.stack_model.specs.Limits.{corner_list_of, live_of, force_of, sway_of};

use stack_polygon::Point;
use stack_whole::MOST_FREE;
use std::alloc::{AllocError, Global};

/// A model has at most this many materials.
pub const MOST_MATERIALS: usize = 64;

/// A model has at most this many joints between its materials.
pub const MOST_JOINTS: usize = 256;

/// A model has at most this many fixed bodies.
pub const MOST_FIXED: usize = 64;

/// A model has at most this many bodies, free and fixed together.
pub const MOST_BODIES: usize = MOST_FREE + MOST_FIXED;

/// A model has at most this many loads, dead and live together.
pub const MOST_LOADS: usize = 256;

fn is_name_byte(b: u8) -> bool
    ensures { result ≡ is_name_byte_of b }
{
    (97 <= b && b <= 122) || (65 <= b && b <= 90) || (48 <= b && b <= 57) || b == 95 || b == 45
}

fn are_name_bytes(bytes: &[u8]) -> bool
    ensures { result ≡ list_all is_name_byte_of bytes.now }
{
    bytes.iter().all(|b| is_name_byte(*b))
}

/// Whether a text is a name: 1 to 32 ASCII letters, digits, `_` and `-`.
pub fn is_name(name: &str) -> bool
    ensures { result ≡ is_name_of name.now }
{
    1 <= name.len() && name.len() <= 32 && are_name_bytes(name.as_bytes())
}

/// Whether a number is from `low` to `high`, both included.
pub fn is_between(low: i64, high: i64, z: i64) -> bool
    ensures { result ≡ is_between_of low high z }
{
    low <= z && z <= high
}

/// The terms of a coefficient of friction: the numerator from 0 to 1,000 and the denominator from 1 to 1,000.
pub fn friction(numbers: &[i64]) -> Option<(i64, i64)>
    ensures { result ≡ friction_of numbers.now }
{
    match numbers {
        [p, q] => {
            if is_between(0, 1000, *p) && is_between(1, 1000, *q) {
                Some((*p, *q))
            } else {
                None
            }
        }
        _ => None,
    }
}

/// A point: two coordinates from -1,000,000 to 1,000,000.
pub fn point(numbers: &[i64]) -> Option<Point>
    ensures { result ≡ point_of numbers.now }
{
    match numbers {
        [x, y] => {
            if is_between(-1_000_000, 1_000_000, *x) && is_between(-1_000_000, 1_000_000, *y) {
                Some(Point { x: *x, y: *y })
            } else {
                None
            }
        }
        _ => None,
    }
}

fn points(alloc: Global, lists: &[Vec<i64>]) -> Result<Option<Vec<Point>>, AllocError>
    ensures { IfOk result (λ found. option_map (λ v. v.items) found ≡ points_of (map numbers_view lists.now)) }
{
    let mut found = Vec::new(alloc);
    for numbers in lists {
        match point(numbers.as_slice()) {
            Some(corner) => found.push(corner)?,
            None => return Ok(None),
        }
    }
    Ok(Some(found))
}

/// The corners of a block: 3 to 32 points.
pub fn corners(alloc: Global, lists: &[Vec<i64>]) -> Result<Option<Vec<Point>>, AllocError>
    ensures { IfOk result (λ found. option_map (λ v. v.items) found ≡ corner_list_of (map numbers_view lists.now)) }
{
    if 3 <= lists.len() && lists.len() <= 32 {
        points(alloc, lists)
    } else {
        Ok(None)
    }
}

/// A sway: two numbers from -1,000 to 1,000.
pub fn sway(numbers: &[i64]) -> Option<(i64, i64)>
    ensures { result ≡ sway_of numbers.now }
{
    match numbers {
        [x, y] => {
            if is_between(-1000, 1000, *x) && is_between(-1000, 1000, *y) {
                Some((*x, *y))
            } else {
                None
            }
        }
        _ => None,
    }
}

/// Whether a load is live, by the word of its kind.
pub fn live(kind: &str) -> Option<bool>
    ensures { result ≡ live_of kind.now }
{
    if kind == "live" {
        Some(true)
    } else if kind == "dead" {
        Some(false)
    } else {
        None
    }
}

/// A force: two components of at most 1,000,000,000 in size.
pub fn force(numbers: &[i64]) -> Option<(i64, i64)>
    ensures { result ≡ force_of numbers.now }
{
    match numbers {
        [fx, fy] => {
            if is_between(-1_000_000_000, 1_000_000_000, *fx)
                && is_between(-1_000_000_000, 1_000_000_000, *fy)
            {
                Some((*fx, *fy))
            } else {
                None
            }
        }
        _ => None,
    }
}
