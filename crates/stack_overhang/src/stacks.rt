//! Stacks without friction on the end of a table.

ghost use Rattle.std.specs.Prelude.{◌≡◌, true, IfOk, IfErr};
ghost use Rattle.stack_model.specs.ModelView.{model_view};
ghost use Rattle.stack_overhang.specs.Limits.{is_placed, are_laid};
ghost use Rattle.stack_overhang.specs.Gives.{GivesStack, sized};
ghost use Rattle.stack_overhang.specs.Stacks.{stack_on, harmonic_of, triangle_stack, slab_of};
ghost use Rattle.stack_overhang.specs.declared.error.StackError.TheVariants.{Memory};

use crate::bricks::bricks;
use crate::error::StackError;
use crate::layers::{harmonic_layers, slab_layers, triangle_layers};
use crate::modelling::model;
use crate::parts::{blocks, materials};
use crate::types::{BrickRow, Rectangle};
use stack_model::{Model, Parts};
use std::alloc::Global;

/// The table of a harmonic stack.
const LONG_TABLE: Rectangle = Rectangle {
    left: -10_080,
    bottom: -1000,
    right: 0,
    top: 0,
};

/// The table of a triangle and of a slab.
const SHORT_TABLE: Rectangle = Rectangle {
    left: -20,
    bottom: -1,
    right: 0,
    top: 0,
};

/// Rows of bricks on a table.
fn stack(alloc: Global, table: Rectangle, rows: &[BrickRow]) -> Result<Model, StackError>
    requires table { is_placed table ≡ true }
    requires rows { are_laid rows.now ≡ true }
    ensures ok { IfOk result (λ m. model_view m ≡ stack_on table rows.now) }
    ensures memory { IfErr result (λ e. e ≡ Memory) }
{
    let materials = materials(alloc, 0, 1)?;
    let bricks = bricks(alloc, rows)?;
    let blocks = blocks(alloc, "table", table, &bricks)?;
    model(
        alloc,
        Parts::first(alloc, materials, blocks, Vec::new(alloc)),
    )
}

/// The harmonic stack of `n` bricks, 1 to 10, each 5,040 long and 1,000 high, on a table that ends at 0. The right end
/// of brick i, from 1 at the bottom, is the sum of 2520/k for k from n - i + 1 to n, so that the overhang is half the
/// sum of 1/1 to 1/n in brick lengths. `Size` exactly for any other `n`, else `Memory` if memory ran out.
pub fn harmonic(alloc: Global, n: u32) -> Result<Model, StackError>
    ensures { GivesStack result (sized 1 10 n (harmonic_of n)) }
{
    if n < 1 {
        return Err(StackError::Size);
    }
    if n > 10 {
        return Err(StackError::Size);
    }
    let rows = harmonic_layers(alloc, n)?;
    stack(alloc, LONG_TABLE, &rows)
}

/// The inverted triangle of `m` rows, 1 to 10: row i, from 1 at the bottom, has i bricks, each 2 long and 1 high, and
/// its middle is the end of the table, at 0. `Size` exactly for any other `m`, else `Memory` if memory ran out.
pub fn triangle(alloc: Global, m: u32) -> Result<Model, StackError>
    ensures { GivesStack result (sized 1 10 m (triangle_stack m)) }
{
    if m < 1 {
        return Err(StackError::Size);
    }
    if m > 10 {
        return Err(StackError::Size);
    }
    let rows = triangle_layers(alloc, m)?;
    stack(alloc, SHORT_TABLE, &rows)
}

/// The slab of depth `d`, 1 to 6: a row of one brick, and for each r from 2 to d the 2r - 3 rows of r, r - 1, r, .. r
/// bricks, from the bottom; bricks and table are those of a triangle. `Size` exactly for any other `d`, else `Memory`
/// if memory ran out. After Paterson and Zwick, "Overhang" (2009).
pub fn slab(alloc: Global, d: u32) -> Result<Model, StackError>
    ensures { GivesStack result (sized 1 6 d (slab_of d)) }
{
    if d < 1 {
        return Err(StackError::Size);
    }
    if d > 6 {
        return Err(StackError::Size);
    }
    let rows = slab_layers(alloc, d)?;
    stack(alloc, SHORT_TABLE, &rows)
}
