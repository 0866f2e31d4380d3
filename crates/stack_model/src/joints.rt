//! The joints of a file, checked one after the other.

ghost use Rattle.std.specs.Prelude.{◌≡◌, [], map};
ghost use Rattle.stack_algebra.specs.Steps.{steps};
ghost use Rattle.stack_model.specs.Structure.{joins as joins_of, joint_terms};
ghost use Rattle.stack_model.specs.Raw.{raw_joint};
ghost use Rattle.stack_model.specs.Gives.{Gives};
ghost use Rattle.stack_model.specs.Content.{add_joint};

use crate::bodies::found;
use crate::errors::ModelError;
use crate::materials::{Materials, friction_at};
use crate::places::Spot;
use crate::raw::RawJoint;
use crate::types::Joint;
use stack_whole::unless;
use std::alloc::Global;

/// Whether the joint is between the materials `a` and `b`, in either order.
fn joins(joint: Joint, a: usize, b: usize) -> bool
    ensures { result ≡ joins_of joint a b }
{
    (joint.first == a && joint.second == b) || (joint.first == b && joint.second == a)
}

/// The terms of the coefficient of the joint between the materials `a` and `b`, if one is listed.
pub fn terms_between(joints: &[Joint], a: usize, b: usize) -> Option<(i64, i64)>
    ensures { result ≡ joint_terms joints.now a b }
{
    match joints.iter().find(|joint| joins(**joint, a, b)) {
        Some(joint) => Some((joint.p, joint.q)),
        None => None,
    }
}

#[tactic(auto, unfolding(crate::specs::Content::add_joint))]
fn add(
    index: usize,
    so_far: &mut Vec<Joint>,
    materials: &Materials,
    raw: &RawJoint,
) -> Result<(), ModelError>
    ensures { Gives (λ _. so_far.new.items) result (add_joint materials.now index so_far.old.items
        (raw_joint raw.now)) }
{
    let (p, q) = friction_at(Spot::Joint(index), raw.friction.as_slice())?;
    let unknown = ModelError::NoJointMaterial { joint: index };
    let first = found(materials.number(raw.first.as_str()), unknown)?;
    let second = found(materials.number(raw.second.as_str()), unknown)?;
    unless(
        terms_between(so_far.as_slice(), first, second).is_none(),
        ModelError::SameJoint { joint: index },
    )?;
    so_far.push(Joint {
        first,
        second,
        p,
        q,
    })?;
    Ok(())
}

/// The joints, or the first fault of their content.
pub fn all_joints(
    alloc: Global,
    materials: &Materials,
    raws: &[RawJoint],
) -> Result<Vec<Joint>, ModelError>
    ensures { Gives (λ v. v.items) result (steps (add_joint materials.now) 0 [] (map raw_joint raws.now)) }
{
    let mut so_far = Vec::new(alloc);
    for (index, raw) in raws.iter().enumerate() {
        add(index, &mut so_far, materials, raw)?;
    }
    Ok(so_far)
}
