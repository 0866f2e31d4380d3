//! The parts of a model's content, in the order of their faults.

ghost use Rattle.std.specs.Prelude.{◌≡◌, option_map, IfOk};
ghost use Rattle.stack_model.specs.Raw.{numbers_view, raw_parts};
ghost use Rattle.stack_model.specs.Gives.{Gives};
ghost use Rattle.stack_model.specs.Content.{at_most as at_most_of, sway_listed, head_of, joints_of, bodies_of};
ghost use Rattle.stack_model.specs.Content.{loads_of};

use crate::bodies::{Bodies, all_bodies};
use crate::errors::ModelError;
use crate::joints::all_joints;
use crate::kept::Head;
use crate::limits::{MOST_BODIES, MOST_JOINTS, MOST_LOADS, MOST_MATERIALS, is_between, sway};
use crate::loads::all_loads;
use crate::materials::{Materials, all_materials};
use crate::places::{Key, Spot, What};
use crate::raw::Parts;
use crate::types::{Joint, Load};
use stack_whole::unless;
use std::alloc::Global;

fn at_most(limit: usize, count: usize, what: What) -> Result<(), ModelError>
    ensures { Gives (λ x. x) result (at_most_of limit count what) }
{
    unless(count <= limit, ModelError::TooMany { what })
}

/// The sway that is listed; (0, 0) where none is.
fn listed_sway(listed: &Option<Vec<i64>>) -> Result<(i64, i64), ModelError>
    ensures { Gives (λ s. s) result (sway_listed (option_map numbers_view listed.now)) }
{
    match listed {
        Some(numbers) => match sway(numbers.as_slice()) {
            Some(sway) => Ok(sway),
            None => Err(ModelError::Range {
                spot: Spot::Top,
                key: Key::Sway,
            }),
        },
        None => Ok((0, 0)),
    }
}

/// The known version of parts, and their sway.
#[tactic(auto, unfolding(crate::specs::Content::head_of))]
pub fn head(parts: &Parts) -> Result<Head, ModelError>
    ensures sway { Gives (λ h. h.sway) result (head_of (raw_parts parts.now)) }
    ensures version { IfOk result (λ h. h.version ≡ parts.now.version) }
{
    unless(
        is_between(1, 2, parts.version),
        ModelError::Range {
            spot: Spot::Top,
            key: Key::Version,
        },
    )?;
    let sway = listed_sway(&parts.sway)?;
    Ok(Head {
        version: parts.version,
        sway,
    })
}

/// The materials and the joints between them.
#[tactic(auto, unfolding(crate::specs::Content::joints_of))]
pub fn joints(alloc: Global, parts: &Parts) -> Result<(Materials, Vec<Joint>), ModelError>
    ensures { Gives (λ b. (b.0, b.1.items)) result (joints_of (raw_parts parts.now)) }
{
    at_most(MOST_MATERIALS, parts.materials.len(), What::Materials)?;
    let materials = all_materials(alloc, parts.materials.as_slice())?;
    at_most(MOST_JOINTS, parts.joints.len(), What::Joints)?;
    let joints = all_joints(alloc, &materials, parts.joints.as_slice())?;
    Ok((materials, joints))
}

/// The bodies, of these materials.
#[tactic(auto, unfolding(crate::specs::Content::bodies_of))]
pub fn bodies(alloc: Global, materials: &Materials, parts: &Parts) -> Result<Bodies, ModelError>
    ensures { Gives (λ b. b) result (bodies_of materials.now (raw_parts parts.now)) }
{
    at_most(MOST_BODIES, parts.blocks.len(), What::Blocks)?;
    all_bodies(alloc, materials, parts.blocks.as_slice())
}

/// The loads, on these bodies.
#[tactic(auto, unfolding(crate::specs::Content::loads_of))]
pub fn loads(alloc: Global, bodies: &Bodies, parts: &Parts) -> Result<Vec<Load>, ModelError>
    ensures { Gives (λ v. v.items) result (loads_of bodies.now (raw_parts parts.now)) }
{
    at_most(MOST_LOADS, parts.loads.len(), What::Loads)?;
    all_loads(alloc, bodies, parts.loads.as_slice())
}
