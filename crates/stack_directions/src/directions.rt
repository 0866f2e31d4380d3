//! Directions in which two live loads are raised together, and their text.

ghost use Rattle.std.specs.Prelude.{◌≡◌, ℤ, IfSome, IfNone};
ghost use Rattle.stack_directions.specs.Directions.{IsDirection, IsDirectionBody, IsDirectionLine};
ghost use Rattle.stack_directions.specs.Reading.{GivesDirections, ReadsDirections};

use crate::errors::DirectionsError;
use stack_certificate::{after, cut_line, read_two};
use std::alloc::Global;

/// A text has at most this many directions.
const MOST_DIRECTIONS: usize = 64;

/// Two numbers from -1,000 to 1,000 that aren't both 0.
fn limited(numbers: (i128, i128)) -> Option<(i64, i64)>
    ensures some { IfSome result (λ d. IsDirection d.0 d.1 × ((d.0 ≡ numbers.0) × (d.1 ≡ numbers.1))) }
    ensures none { IfNone result (¬ IsDirection numbers.0 numbers.1) }
{
    let (m, n) = numbers;
    if m < -1_000 || m > 1_000 {
        return None;
    }
    if n < -1_000 || n > 1_000 {
        return None;
    }
    if m == 0 && n == 0 {
        return None;
    }
    Some((m as i64, n as i64))
}

/// The direction whose line without its line feed the bytes are.
fn body_direction(body: &[u8]) -> Option<(i64, i64)>
    ensures some { IfSome result (λ d. IsDirectionBody d body.now) }
    ensures none { IfNone result ((d : ℤ × ℤ) → ¬ IsDirectionBody d body.now) }
{
    let Some(rest) = after(body, b"dir ") else {
        return None;
    };
    let Some(numbers) = read_two(rest) else {
        return None;
    };
    limited(numbers)
}

/// The direction whose line the bytes are.
fn direction(bytes: &[u8]) -> Option<(i64, i64)>
    ensures some { IfSome result (λ d. IsDirectionLine d bytes.now) }
    ensures none { IfNone result ((d : ℤ × ℤ) → ¬ IsDirectionLine d bytes.now) }
{
    match bytes {
        [body @ .., b'\n'] => body_direction(body),
        _ => None,
    }
}

/// The directions of a text, in the order of its lines: 1 to 64 lines `dir M N` with whole numbers from -1,000 to
/// 1,000, not both 0. `Line` exactly if a line is faulty, with the number of the first one. Memory may run out at any
/// time.
pub fn read_directions(alloc: Global, text: &[u8]) -> Result<Vec<(i64, i64)>, DirectionsError>
    ensures gives { GivesDirections result text.now }
    ensures reads { ReadsDirections result text.now }
{
    if text.is_empty() {
        return Err(DirectionsError::Line { number: 1 });
    }
    let mut directions = Vec::new(alloc);
    let mut rest = text;
    let mut number = 1;
    while !rest.is_empty() {
        if number > MOST_DIRECTIONS {
            return Err(DirectionsError::Line { number });
        }
        let (line, after) = cut_line(rest);
        match direction(line) {
            Some(direction) => directions.push(direction)?,
            None => return Err(DirectionsError::Line { number }),
        }
        rest = after;
        number += 1;
    }
    Ok(directions)
}
