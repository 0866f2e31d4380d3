//! The rows of each stack.

ghost use Rattle.std.specs.Prelude.{◌≡◌, ◌≤◌, ◌++◌, IfOk};
ghost use Rattle.stack_overhang.specs.Stacks.{harmonic_rows, centred, brick_rows, triangle_counts, layer_of};
ghost use Rattle.stack_overhang.specs.Stacks.{slab_counts};

use crate::types::BrickRow;
use std::alloc::{AllocError, Global};

/// The bricks of a harmonic stack, each a row of its own.
pub fn harmonic_layers(alloc: Global, n: u32) -> Result<Vec<BrickRow>, AllocError>
    requires { n ≤ 10 }
    ensures { IfOk result (λ v. v.items ≡ harmonic_rows n) }
{
    let mut rows = Vec::new(alloc);
    let mut right: i64 = 0;
    for k in 0..n {
        right += (2520 / (n - k)) as i64;
        rows.push(BrickRow {
            left: right - 5040,
            bottom: 1000 * k as i64,
            count: 1,
            long: 5040,
            high: 1000,
        })?;
    }
    Ok(rows)
}

/// The rows with these numbers of bricks, from the bottom, each with its middle at 0.
fn rows(alloc: Global, counts: &[u32]) -> Result<Vec<BrickRow>, AllocError>
    ensures { IfOk result (λ v. v.items ≡ brick_rows counts.now) }
{
    let mut rows = Vec::new(alloc);
    for (k, count) in counts.iter().enumerate() {
        rows.push(BrickRow {
            left: -(*count as i64),
            bottom: k as i64,
            count: *count,
            long: 2,
            high: 1,
        })?;
    }
    Ok(rows)
}

/// The rows of an inverted triangle.
pub fn triangle_layers(alloc: Global, m: u32) -> Result<Vec<BrickRow>, AllocError>
    requires { m ≤ 10 }
    ensures { IfOk result (λ v. v.items ≡ brick_rows (triangle_counts m)) }
{
    let mut counts = Vec::new(alloc);
    for k in 0..m {
        counts.push(k + 1)?;
    }
    rows(alloc, &counts)
}

/// These counts of bricks, and those of the rows r, r - 1, r, .. r.
fn with_layer(mut counts: Vec<u32>, r: u32) -> Result<Vec<u32>, AllocError>
    requires least { 2 ≤ r }
    requires most { r ≤ 6 }
    ensures { IfOk result (λ v. v.items ≡ counts.items ++ layer_of r) }
{
    for t in 0..2 * r - 3 {
        counts.push(r - t % 2)?;
    }
    Ok(counts)
}

/// The rows of a slab.
pub fn slab_layers(alloc: Global, d: u32) -> Result<Vec<BrickRow>, AllocError>
    requires least { 1 ≤ d }
    requires most { d ≤ 6 }
    ensures { IfOk result (λ v. v.items ≡ brick_rows (slab_counts d)) }
{
    let mut counts = Vec::new(alloc);
    counts.push(1)?;
    for r in 2..d + 1 {
        counts = with_layer(counts, r)?;
    }
    rows(alloc, &counts)
}
