//! Walls drawn by number.

ghost use Rattle.std.specs.Prelude.{◌≡◌, ◌<◌, ◌≤◌, ◌^◌, true, IfOk, IfErr};
ghost use Rattle.stack_model.specs.ModelView.{model_view};
ghost use Rattle.stack_model.specs.Structure.{HasLive};
ghost use Rattle.stack_overhang.specs.Gives.{GivesStack, sized};
ghost use Rattle.stack_overhang.specs.Wall.{drawn, wall_by, course_of, courses_of, wall_structure, wall_of};
ghost use Rattle.stack_overhang.specs.Limits.{IsWall};
ghost use Rattle.stack_overhang.specs.declared.error.StackError.TheVariants.{Memory};

use crate::bricks::{brick, bricks};
use crate::error::StackError;
use crate::modelling::model;
use crate::parts::{blocks, materials, push_right};
use crate::types::{BrickRow, Rectangle, Wall};
use stack_model::{Model, Parts};
use std::alloc::{AllocError, Global};

const GROUND: Rectangle = Rectangle {
    left: -1000,
    bottom: -10,
    right: 1000,
    top: 0,
};

/// One step of the generator.
fn draw(seed: u64) -> u64
    requires { seed < 2 ^ 31 }
    ensures value { result ≡ drawn seed }
    ensures range { result < 2 ^ 31 }
{
    (1_103_515_245 * seed + 12_345) % 2_147_483_648
}

/// The shape, the friction and the shift of wall `number`.
fn drawn_wall(number: u32) -> Wall
    requires { number < 1000000 }
    ensures value { result ≡ wall_by number }
    ensures limits { IsWall result }
{
    let first = draw(number as u64);
    let second = draw(first);
    Wall {
        courses: 2 + number % 9,
        bricks: 2 + number / 9 % 9,
        tenths: 3 + (first / 65_536 % 5) as u32,
        shift: 4 + (second / 65_536 % 7) as u32,
    }
}

/// Course `i`, from 1 at the bottom; the even ones are shifted.
fn course(w: Wall, i: u32) -> BrickRow
    requires least { 1 ≤ i }
    requires most { i ≤ 10 }
    ensures { result ≡ course_of w i }
{
    BrickRow {
        left: if i % 2 == 0 { w.shift as i64 } else { 0 },
        bottom: 10 * (i - 1) as i64,
        count: w.bricks,
        long: 20,
        high: 10,
    }
}

/// All courses, from the bottom.
fn courses(alloc: Global, w: Wall) -> Result<Vec<BrickRow>, AllocError>
    requires { w.courses ≤ 10 }
    ensures { IfOk result (λ v. v.items ≡ courses_of w) }
{
    let mut rows = Vec::new(alloc);
    for k in 0..w.courses {
        rows.push(course(w, k + 1))?;
    }
    Ok(rows)
}

/// The model of a wall.
fn built(alloc: Global, w: Wall) -> Result<Model, StackError>
    requires { IsWall w }
    ensures ok { IfOk result (λ m. model_view m ≡ wall_structure w) }
    ensures memory { IfErr result (λ e. e ≡ Memory) }
{
    let materials = materials(alloc, w.tenths as i64, 10)?;
    let rows = courses(alloc, w)?;
    let bricks = bricks(alloc, &rows)?;
    let blocks = blocks(alloc, "ground", GROUND, &bricks)?;
    let first = ((w.courses - 1) * w.bricks) as usize;
    let loads = push_right(alloc, first, brick(course(w, w.courses), 0))?;
    model(alloc, Parts::first(alloc, materials, blocks, loads))
}

/// Wall `number`, 0 to 999,999: 2 + number mod 9 courses of 2 + (number div 9) mod 9 bricks, each 20 long and 10 high,
/// on fixed ground whose top is at 0. A linear congruential generator modulo 2^31 draws two numbers from `number`: the
/// first, divided by 65,536 and taken modulo 5, gives the friction, 3 to 7 tenths; the second, so divided and taken
/// modulo 7, how far the even courses are shifted to the right, 4 to 10. A live load of 1 pushes to the right on the
/// first brick of the top course, at its upper left corner. Weights are 1 for a square of the grid's unit. `Size`
/// exactly for any other `number`, else `Memory` if memory ran out.
pub fn wall(alloc: Global, number: u32) -> Result<Model, StackError>
    ensures gives { GivesStack result (sized 0 999999 number (wall_of number)) }
    ensures live { IfOk result (λ m. HasLive (model_view m)) }
{
    if number > 999_999 {
        return Err(StackError::Size);
    }
    built(alloc, drawn_wall(number))
}
