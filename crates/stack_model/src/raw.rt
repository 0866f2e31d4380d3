//! What a model is made from: names, numbers and lists of numbers as a file has them.

ghost use Rattle.std.specs.Prelude.{◌≡◌, map};
ghost use Rattle.stack_model.specs.Parts.{first_parts};
ghost use Rattle.stack_model.specs.Raw.{raw_material, raw_block, raw_load, raw_parts};

use std::alloc::Global;

/// A material: its name, its weight per unit of area, and the two terms of its coefficient of friction.
#[derive(Drop)]
pub struct RawMaterial {
    pub name: String,
    pub weight: i64,
    pub friction: Vec<i64>,
}

/// A joint: the names of its two materials, and the two terms of the coefficient of friction between them.
#[derive(Drop)]
pub struct RawJoint {
    pub first: String,
    pub second: String,
    pub friction: Vec<i64>,
}

/// A block: its name, the name of its material, whether it is fixed, and its corners, two numbers each.
#[derive(Drop)]
pub struct RawBlock {
    pub name: String,
    pub material: String,
    pub fixed: bool,
    pub corners: Vec<Vec<i64>>,
}

/// A load: the name of its block, `dead` or `live`, its point, and its force.
#[derive(Drop)]
pub struct RawLoad {
    pub block: String,
    pub kind: String,
    pub at: Vec<i64>,
    pub force: Vec<i64>,
}

/// The version, the sway where one is listed, and materials, joints, blocks and loads, each in its order.
#[derive(Drop)]
pub struct Parts {
    pub version: i64,
    pub sway: Option<Vec<i64>>,
    pub materials: Vec<RawMaterial>,
    pub joints: Vec<RawJoint>,
    pub blocks: Vec<RawBlock>,
    pub loads: Vec<RawLoad>,
}

impl Parts {
    /// Parts of version 1, without joints and without a sway. Takes no memory.
    pub fn first(
        alloc: Global,
        materials: Vec<RawMaterial>,
        blocks: Vec<RawBlock>,
        loads: Vec<RawLoad>,
    ) -> Parts
        ensures { raw_parts result ≡ first_parts (map raw_material materials.items) (map raw_block blocks.items)
            (map raw_load loads.items) }
    {
        Parts {
            version: 1,
            sway: None,
            materials,
            joints: Vec::new(alloc),
            blocks,
            loads,
        }
    }
}
