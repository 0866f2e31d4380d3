//! The parts of a model, as a file would list them.

ghost use Rattle.std.specs.Prelude.{◌≡◌, ◌<◌, ◌≤◌, ◌∷◌, ◌++◌, [], IfOk, OnOk, map, length, string_bytes};
ghost use Rattle.stack_whole.specs.Limits.{most_free};
ghost use Rattle.stack_model.specs.Raw.{raw_material, raw_block, raw_load, lists_view};
ghost use Rattle.stack_model.specs.Relisted.{coordinates, material_listed};
ghost use Rattle.stack_overhang.specs.Bricks.{rectangle_corners, brick_name};
ghost use Rattle.stack_overhang.specs.Built.{brick_material};
ghost use Rattle.stack_overhang.specs.Listing.{rectangle_part, brick_block as brick_block_of, blocks_of};
ghost use Rattle.stack_overhang.specs.Listing.{push_listed};

use crate::types::Rectangle;
use stack_model::{RawBlock, RawLoad, RawMaterial};
use stack_whole::Decimal;
use std::alloc::{AllocError, Global};

/// Two numbers.
fn pair(alloc: Global, first: i64, second: i64) -> Result<Vec<i64>, AllocError>
    ensures { IfOk result (λ v. v.items ≡ first ∷ second ∷ []) }
{
    let mut numbers = Vec::new(alloc);
    numbers.push(first)?;
    numbers.push(second)?;
    Ok(numbers)
}

/// Adds a corner to a list.
#[tactic(auto, using(std::proofs::lemmas::List::map_push))]
fn push_corner(alloc: Global, list: &mut Vec<Vec<i64>>, x: i64, y: i64) -> Result<(), AllocError>
    ensures { OnOk result (lists_view list.new ≡ lists_view list.old ++ (x ∷ y ∷ []) ∷ []) }
{
    let corner = pair(alloc, x, y)?;
    list.push(corner)?;
    Ok(())
}

/// The corners of a rectangle.
fn corners(alloc: Global, r: Rectangle) -> Result<Vec<Vec<i64>>, AllocError>
    ensures { IfOk result (λ v. lists_view v ≡ map coordinates (rectangle_corners r)) }
{
    let mut list = Vec::new(alloc);
    push_corner(alloc, &mut list, r.left, r.bottom)?;
    push_corner(alloc, &mut list, r.right, r.bottom)?;
    push_corner(alloc, &mut list, r.right, r.top)?;
    push_corner(alloc, &mut list, r.left, r.top)?;
    Ok(list)
}

/// The one material, of weight 1, with the coefficient of friction `p` over `q`.
pub fn materials(alloc: Global, p: i64, q: i64) -> Result<Vec<RawMaterial>, AllocError>
    ensures { IfOk result (λ v. map raw_material v.items ≡ material_listed (brick_material p q) ∷ []) }
{
    let material = RawMaterial {
        name: String::from_str(alloc, "brick")?,
        weight: 1,
        friction: pair(alloc, p, q)?,
    };
    let mut list = Vec::new(alloc);
    list.push(material)?;
    Ok(list)
}

/// A rectangle of that material.
fn block(alloc: Global, name: String, fixed: bool, r: Rectangle) -> Result<RawBlock, AllocError>
    ensures { IfOk result (λ b. raw_block b ≡ rectangle_part (string_bytes name) fixed r) }
{
    Ok(RawBlock {
        name,
        material: String::from_str(alloc, "brick")?,
        fixed,
        corners: corners(alloc, r)?,
    })
}

/// The name of brick `k`, from 0.
fn name(alloc: Global, k: usize) -> Result<String, AllocError>
    requires { k < most_free }
    ensures { IfOk result (λ s. string_bytes s ≡ brick_name k) }
{
    format!(in alloc; "b{}", Decimal(k + 1))
}

/// Brick `k`, from 0.
fn brick_block(alloc: Global, k: usize, r: Rectangle) -> Result<RawBlock, AllocError>
    requires { k < most_free }
    ensures { IfOk result (λ b. raw_block b ≡ brick_block_of k r) }
{
    block(alloc, name(alloc, k)?, false, r)
}

/// The fixed body with this name, and the bricks in their order.
pub fn blocks(
    alloc: Global,
    base_name: &str,
    base: Rectangle,
    bricks: &[Rectangle],
) -> Result<Vec<RawBlock>, AllocError>
    requires { length bricks.now ≤ most_free }
    ensures { IfOk result (λ v. map raw_block v.items ≡ blocks_of base_name.now base bricks.now) }
{
    let base = block(alloc, String::from_str(alloc, base_name)?, true, base)?;
    let mut list = Vec::new(alloc);
    list.push(base)?;
    for (k, brick) in bricks.iter().enumerate() {
        list.push(brick_block(alloc, k, *brick)?)?;
    }
    Ok(list)
}

/// The upper left corner of a brick.
fn upper_left(alloc: Global, brick: Rectangle) -> Result<Vec<i64>, AllocError>
    ensures { IfOk result (λ v. v.items ≡ brick.left ∷ brick.top ∷ []) }
{
    pair(alloc, brick.left, brick.top)
}

/// One live load, of force 1 to the right, on the upper left corner of brick `k`.
pub fn push_right(alloc: Global, k: usize, brick: Rectangle) -> Result<Vec<RawLoad>, AllocError>
    requires { k < most_free }
    ensures { IfOk result (λ v. map raw_load v.items ≡ push_listed k brick ∷ []) }
{
    let load = RawLoad {
        block: name(alloc, k)?,
        kind: String::from_str(alloc, "live")?,
        at: upper_left(alloc, brick)?,
        force: pair(alloc, 1, 0)?,
    };
    let mut list = Vec::new(alloc);
    list.push(load)?;
    Ok(list)
}
