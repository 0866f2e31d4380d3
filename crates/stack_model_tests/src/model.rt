//! Two materials, the ground and a block with a load: a model, and two faults of content.

ghost use Rattle.std.specs.Prelude.{◌≡◌, IfSome, pos};

use stack_model::{
    Body, Joint, Key, Load, Material, Model, ModelError, Parts, RawBlock, RawJoint, RawLoad,
    RawMaterial, Spot,
};
use stack_polygon::Point;
use std::alloc::Global;
use std::test::*;

fn material(alloc: Global, name: &str, weight: i64, friction: [i64; 2]) -> Option<RawMaterial> {
    Some(RawMaterial {
        name: String::from_str(alloc, name).ok()?,
        weight,
        friction: friction.to_vec(alloc).ok()?,
    })
}

fn materials(alloc: Global) -> Option<Vec<RawMaterial>> {
    let mut list = Vec::new(alloc);
    list.push(material(alloc, "stone", 1, [1, 1])?).ok()?;
    list.push(material(alloc, "brick", 2, [3, 4])?).ok()?;
    Some(list)
}

fn corners(alloc: Global, list: [[i64; 2]; 4]) -> Option<Vec<Vec<i64>>> {
    let mut found = Vec::new(alloc);
    for corner in list {
        found.push(corner.to_vec(alloc).ok()?).ok()?;
    }
    Some(found)
}

fn block(alloc: Global, name: &str, material: &str, outline: [[i64; 2]; 4]) -> Option<RawBlock> {
    let corners = corners(alloc, outline)?;
    Some(RawBlock {
        name: String::from_str(alloc, name).ok()?,
        material: String::from_str(alloc, material).ok()?,
        fixed: name == "ground",
        corners,
    })
}

/// The ground, and a post of brick with these corners.
fn blocks(alloc: Global, post: [[i64; 2]; 4]) -> Option<Vec<RawBlock>> {
    let ground = [[-10, -1], [10, -1], [10, 0], [-10, 0]];
    let mut list = Vec::new(alloc);
    list.push(block(alloc, "ground", "stone", ground)?).ok()?;
    list.push(block(alloc, "post", "brick", post)?).ok()?;
    Some(list)
}

/// A live load on the post.
fn load(alloc: Global, at: [i64; 2]) -> Option<RawLoad> {
    Some(RawLoad {
        block: String::from_str(alloc, "post").ok()?,
        kind: String::from_str(alloc, "live").ok()?,
        at: at.to_vec(alloc).ok()?,
        force: [1, -2].to_vec(alloc).ok()?,
    })
}

fn loads(alloc: Global, at: [i64; 2]) -> Option<Vec<RawLoad>> {
    let mut list = Vec::new(alloc);
    list.push(load(alloc, at)?).ok()?;
    Some(list)
}

/// The post's corners in a model without a fault.
const POST: [[i64; 2]; 4] = [[0, 0], [0, 4], [2, 4], [2, 0]];

/// The model with these corners of the post, and a load that acts there.
fn model(alloc: Global, post: [[i64; 2]; 4], at: [i64; 2]) -> Option<Result<Model, ModelError>> {
    let loads = loads(alloc, at)?;
    let materials = materials(alloc)?;
    let parts = Parts::first(alloc, materials, blocks(alloc, post)?, loads);
    Some(Model::new(alloc, parts))
}

/// The second material, both bodies, the corners of the second and one of them, and the only load.
type Told = (Material, [Body; 2], usize, Point, Load);

fn told(model: &Model) -> Option<Told> {
    if model.materials() != 2 {
        return None;
    }
    if model.bodies() != 2 {
        return None;
    }
    if model.loads() != 1 {
        return None;
    }
    let outline = model.polygon(1);
    if outline.len() != 4 {
        return None;
    }
    let bodies = [model.body(0), model.body(1)];
    Some((
        model.material(1),
        bodies,
        4,
        outline.corner(1),
        model.load(0),
    ))
}

/// Whether the second material and the second body have these names.
fn are_named(model: &Model) -> bool {
    model.materials() == 2
        && model.material_name(1) == "brick"
        && model.bodies() == 2
        && model.name(1) == "post"
}

/// What the calls say of the model without a fault.
const FAULTLESS: Told = (
    Material {
        weight: 2,
        p: 3,
        q: 4,
    },
    [
        Body {
            material: 0,
            fixed: true,
        },
        Body {
            material: 1,
            fixed: false,
        },
    ],
    4,
    Point { x: 2, y: 0 },
    Load {
        body: 1,
        live: true,
        at: Point { x: 0, y: 4 },
        fx: 1,
        fy: -2,
    },
);

/// Whether they say that, the names are right, and there is a live load.
fn is_faultless(model: &Model) -> [bool; 3] {
    [
        told(model) == Some(FAULTLESS),
        are_named(model),
        model.has_live(),
    ]
}

fn faultless(alloc: Global) -> Option<[bool; 3]> {
    match model(alloc, POST, [0, 4])? {
        Ok(model) => Some(is_faultless(&model)),
        Err(_) => None,
    }
}

#[test]
fn parts_without_a_fault_make_a_model(rt: HostRuntime) {
    assert!(rt; faultless(rt.alloc()) == Some([true; 3]));
}

fn joints(alloc: Global) -> Option<Vec<RawJoint>> {
    let joint = RawJoint {
        first: String::from_str(alloc, "brick").ok()?,
        second: String::from_str(alloc, "stone").ok()?,
        friction: [2, 4].to_vec(alloc).ok()?,
    };
    let mut list = Vec::new(alloc);
    list.push(joint).ok()?;
    Some(list)
}

/// Parts of version 2: a joint of brick on stone and a sway, and no load.
fn second(alloc: Global) -> Option<Parts>
    ensures { IfSome result (λ p. p.version ≡ pos 2) }
{
    let blocks = blocks(alloc, POST)?;
    let materials = materials(alloc)?;
    let joints = joints(alloc)?;
    let sway = [1, -2].to_vec(alloc).ok()?;
    Some(Parts {
        version: 2,
        sway: Some(sway),
        materials,
        joints,
        blocks,
        loads: Vec::new(alloc),
    })
}

/// Version, sway, the only joint, the frictions of three pairs of materials, and whether there is a live load.
type ToldSecond = (i64, (i64, i64), Joint, [Option<(i64, i64)>; 3], bool);

fn told_second(model: &Model) -> Option<ToldSecond> {
    if model.materials() != 2 {
        return None;
    }
    if model.joints() != 1 {
        return None;
    }
    let frictions = [
        model.friction(0, 1),
        model.friction(1, 0),
        model.friction(0, 0),
    ];
    let (version, sway) = (model.version(), model.sway());
    Some((version, sway, model.joint(0), frictions, model.has_live()))
}

/// The model of the second parts.
fn second_model(alloc: Global) -> Option<Model> {
    let Some(parts) = second(alloc) else {
        return None;
    };
    Model::new(alloc, parts).ok()
}

/// The model of the parts that a model lists.
fn listed_again(alloc: Global, model: &Model) -> Option<Model> {
    let Ok(parts) = model.parts(alloc) else {
        return None;
    };
    Model::new(alloc, parts).ok()
}

/// Whether a model whose loads and sway are taken away has no sway and no live load.
fn is_stilled(alloc: Global, model: &Model) -> bool {
    match model.with_loads(alloc, &[], (0, 0)) {
        Ok(still) => still.sway() == (0, 0) && !still.has_live(),
        Err(_) => false,
    }
}

/// What the calls say of the model of the second parts.
const SECOND: ToldSecond = (
    2,
    (1, -2),
    Joint {
        first: 1,
        second: 0,
        p: 2,
        q: 4,
    },
    [Some((2, 4)), Some((2, 4)), None],
    true,
);

fn again(alloc: Global) -> Option<[bool; 2]> {
    let first = second_model(alloc)?;
    let model = listed_again(alloc, &first)?;
    Some([
        told_second(&model) == Some(SECOND),
        is_stilled(alloc, &model),
    ])
}

#[test]
fn joints_and_a_sway_are_kept_and_listed_again(rt: HostRuntime) {
    assert!(rt; again(rt.alloc()) == Some([true; 2]));
}

/// Why there is no model with these corners of the post, and a load that acts there.
fn refusal(alloc: Global, post: [[i64; 2]; 4], at: [i64; 2]) -> Option<ModelError> {
    model(alloc, post, at)?.err()
}

/// The fault of a load past the greatest coordinate, and of a post with a dent.
const RANGE: ModelError = ModelError::Range {
    spot: Spot::Load(0),
    key: Key::At,
};

const DENT: ModelError = ModelError::NotConvex { block: 1, edge: 2 };

fn faults_are_named(alloc: Global) -> [bool; 2] {
    let dented = [[0, 0], [4, 0], [4, 4], [3, 1]];
    [
        refusal(alloc, POST, [0, 1_000_001]) == Some(RANGE),
        refusal(alloc, dented, [0, 4]) == Some(DENT),
    ]
}

#[test]
fn faults_are_named_with_their_place(rt: HostRuntime) {
    assert!(rt; faults_are_named(rt.alloc()) == [true; 2]);
}
