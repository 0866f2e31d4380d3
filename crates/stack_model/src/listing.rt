//! The parts of a model, as a file lists them.

ghost use Rattle.std.specs.Prelude.{◌≡◌, ◌<◌, ◌∷◌, [], IfOk, Ok, map, option_map, length};
ghost use Rattle.stack_model.specs.Structure.{material_of, joint_of, body_of, load_of};
ghost use Rattle.stack_model.specs.ModelView.{model_view};
ghost use Rattle.stack_model.specs.Content.{content_of};
ghost use Rattle.stack_model.specs.Parts.{IsOfVersion};
ghost use Rattle.stack_model.specs.Raw.{raw_material, raw_joint, raw_block, raw_load, raw_parts, numbers_view};
ghost use Rattle.stack_model.specs.Raw.{lists_view};
ghost use Rattle.stack_model.specs.Relisted.{coordinates, kind_word, material_listed, joint_listed, body_listed};
ghost use Rattle.stack_model.specs.Relisted.{load_listed, sway_relisted, relisted};

use crate::model::{Model, is_still};
use crate::raw::{Parts, RawBlock, RawJoint, RawLoad, RawMaterial};
use stack_polygon::{Point, Polygon};
use std::alloc::{AllocError, Global};

/// Two numbers.
fn pair(alloc: Global, first: i64, second: i64) -> Result<Vec<i64>, AllocError>
    ensures { IfOk result (λ v. v.items ≡ first ∷ second ∷ []) }
{
    let mut numbers = Vec::new(alloc);
    numbers.push(first)?;
    numbers.push(second)?;
    Ok(numbers)
}

/// The coordinates of a point.
fn place(alloc: Global, at: Point) -> Result<Vec<i64>, AllocError>
    ensures { IfOk result (λ v. v.items ≡ coordinates at) }
{
    pair(alloc, at.x, at.y)
}

/// The corners of an outline.
fn corners(alloc: Global, outline: &Polygon) -> Result<Vec<Vec<i64>>, AllocError>
    ensures { IfOk result (λ v. lists_view v ≡ map coordinates outline.now) }
{
    let mut list = Vec::new(alloc);
    for i in 0..outline.len() {
        list.push(place(alloc, outline.corner(i))?)?;
    }
    Ok(list)
}

/// A sway; (0, 0) is none.
fn listed_sway(alloc: Global, sway: (i64, i64)) -> Result<Option<Vec<i64>>, AllocError>
    ensures { IfOk result (λ o. option_map numbers_view o ≡ sway_relisted sway) }
{
    if is_still(sway) {
        return Ok(None);
    }
    Ok(Some(pair(alloc, sway.0, sway.1)?))
}

/// Material `i`.
fn material(alloc: Global, model: &Model, i: usize) -> Result<RawMaterial, AllocError>
    requires { i < length (model_view model.now).materials }
    ensures { IfOk result (λ m. raw_material m ≡ material_listed (material_of (model_view model.now) i)) }
{
    let material = model.material(i);
    Ok(RawMaterial {
        name: String::from_str(alloc, model.material_name(i))?,
        weight: material.weight,
        friction: pair(alloc, material.p, material.q)?,
    })
}

/// Joint `i`, with the names of its materials.
fn joint(alloc: Global, model: &Model, i: usize) -> Result<RawJoint, AllocError>
    requires { i < length (model_view model.now).joints }
    ensures { IfOk result (λ j. raw_joint j ≡ joint_listed (model_view model.now).materials
        (joint_of (model_view model.now) i)) }
{
    let joint = model.joint(i);
    Ok(RawJoint {
        first: String::from_str(alloc, model.material_name(joint.first))?,
        second: String::from_str(alloc, model.material_name(joint.second))?,
        friction: pair(alloc, joint.p, joint.q)?,
    })
}

/// Body `i`, with the name of its material.
fn block(alloc: Global, model: &Model, i: usize) -> Result<RawBlock, AllocError>
    requires { i < length (model_view model.now).bodies }
    ensures { IfOk result (λ b. raw_block b ≡ body_listed (model_view model.now).materials
        (body_of (model_view model.now) i)) }
{
    let body = model.body(i);
    Ok(RawBlock {
        name: String::from_str(alloc, model.name(i))?,
        material: String::from_str(alloc, model.material_name(body.material))?,
        fixed: body.fixed,
        corners: corners(alloc, model.polygon(i))?,
    })
}

/// The word of a load's kind.
fn kind(live: bool) -> &'static str
    ensures { result.now ≡ kind_word live }
{
    if live { "live" } else { "dead" }
}

/// Load `i`, with the name of its block.
fn load(alloc: Global, model: &Model, i: usize) -> Result<RawLoad, AllocError>
    requires { i < length (model_view model.now).loads }
    ensures { IfOk result (λ l. raw_load l ≡ load_listed (model_view model.now).bodies
        (load_of (model_view model.now) i)) }
{
    let load = model.load(i);
    Ok(RawLoad {
        block: String::from_str(alloc, model.name(load.body))?,
        kind: String::from_str(alloc, kind(load.live))?,
        at: place(alloc, load.at)?,
        force: pair(alloc, load.fx, load.fy)?,
    })
}

/// All materials.
fn materials(alloc: Global, model: &Model) -> Result<Vec<RawMaterial>, AllocError>
    ensures { IfOk result (λ v. map raw_material v.items ≡ map material_listed (model_view model.now).materials) }
{
    let mut list = Vec::new(alloc);
    for i in 0..model.materials() {
        list.push(material(alloc, model, i)?)?;
    }
    Ok(list)
}

/// All joints.
fn joints(alloc: Global, model: &Model) -> Result<Vec<RawJoint>, AllocError>
    ensures { IfOk result (λ v. map raw_joint v.items ≡ map (joint_listed (model_view model.now).materials)
        (model_view model.now).joints) }
{
    let mut list = Vec::new(alloc);
    for i in 0..model.joints() {
        list.push(joint(alloc, model, i)?)?;
    }
    Ok(list)
}

/// All bodies.
fn blocks(alloc: Global, model: &Model) -> Result<Vec<RawBlock>, AllocError>
    ensures { IfOk result (λ v. map raw_block v.items ≡ map (body_listed (model_view model.now).materials)
        (model_view model.now).bodies) }
{
    let mut list = Vec::new(alloc);
    for i in 0..model.bodies() {
        list.push(block(alloc, model, i)?)?;
    }
    Ok(list)
}

/// All loads.
fn loads(alloc: Global, model: &Model) -> Result<Vec<RawLoad>, AllocError>
    ensures { IfOk result (λ v. map raw_load v.items ≡ map (load_listed (model_view model.now).bodies)
        (model_view model.now).loads) }
{
    let mut list = Vec::new(alloc);
    for i in 0..model.loads() {
        list.push(load(alloc, model, i)?)?;
    }
    Ok(list)
}

/// The parts of a model.
fn listed_parts(alloc: Global, model: &Model) -> Result<Parts, AllocError>
    ensures { IfOk result (λ p. raw_parts p ≡ relisted (model_view model.now)) }
{
    Ok(Parts {
        version: model.version(),
        sway: listed_sway(alloc, model.sway())?,
        materials: materials(alloc, model)?,
        joints: joints(alloc, model)?,
        blocks: blocks(alloc, model)?,
        loads: loads(alloc, model)?,
    })
}

impl Model {
    /// Parts of which `Model::new` makes the same model, unless memory runs out. `AllocError` where it ran out here.
    pub fn parts(&self, alloc: Global) -> Result<Parts, AllocError>
        ensures value { IfOk result (λ p. raw_parts p ≡ relisted (model_view self.now)) }
        ensures taken { IfOk result (λ p. content_of (raw_parts p) ≡ Ok (model_view self.now)) }
        ensures version { IfOk result (λ p. IsOfVersion (raw_parts p)) }
    {
        self.sound();
        listed_parts(alloc, self)
    }
}
