//! The bricks of rows, as rectangles.

ghost use Rattle.std.specs.Prelude.{◌≡◌, ◌<◌, ◌++◌, true, IfOk};
ghost use Rattle.stack_overhang.specs.Bricks.{brick_of, bricks_in, bricks_of};
ghost use Rattle.stack_overhang.specs.Limits.{is_row, are_rows};

use crate::types::{BrickRow, Rectangle};
use std::alloc::{AllocError, Global};

/// Brick `j` of the row, from 0 at its left.
pub fn brick(row: BrickRow, j: u32) -> Rectangle
    requires laid { is_row row ≡ true }
    requires below { j < row.count }
    ensures { result ≡ brick_of row j }
{
    let left = row.left + row.long * j as i64;
    Rectangle {
        left,
        bottom: row.bottom,
        right: left + row.long,
        top: row.bottom + row.high,
    }
}

/// These bricks, and those of the row.
fn with_row(mut bricks: Vec<Rectangle>, row: BrickRow) -> Result<Vec<Rectangle>, AllocError>
    requires { is_row row ≡ true }
    ensures { IfOk result (λ v. v.items ≡ bricks.items ++ bricks_in row) }
{
    for j in 0..row.count {
        bricks.push(brick(row, j))?;
    }
    Ok(bricks)
}

/// The bricks of all rows.
pub fn bricks(alloc: Global, rows: &[BrickRow]) -> Result<Vec<Rectangle>, AllocError>
    requires { are_rows rows.now ≡ true }
    ensures { IfOk result (λ v. v.items ≡ bricks_of rows.now) }
{
    let mut found = Vec::new(alloc);
    for row in rows {
        found = with_row(found, *row)?;
    }
    Ok(found)
}
