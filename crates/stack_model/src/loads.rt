//! The loads of a file, checked one after the other.

ghost use Rattle.std.specs.Prelude.{◌≡◌, [], map};
ghost use Rattle.stack_algebra.specs.Steps.{steps};
ghost use Rattle.stack_model.specs.Raw.{raw_load};
ghost use Rattle.stack_model.specs.Gives.{Gives};
ghost use Rattle.stack_model.specs.Limits.{live_of, point_of, force_of};
ghost use Rattle.stack_model.specs.Content.{ranged, add_load};

use crate::bodies::{Bodies, found};
use crate::errors::ModelError;
use crate::limits::{force, live, point};
use crate::places::{Key, Spot};
use crate::raw::RawLoad;
use crate::types::Load;
use stack_polygon::Point;
use stack_whole::unless;
use std::alloc::Global;

fn live_at(spot: Spot, kind: &str) -> Result<bool, ModelError>
    ensures { Gives (λ b. b) result (ranged spot Key.Kind (live_of kind.now)) }
{
    match live(kind) {
        Some(is_live) => Ok(is_live),
        None => Err(ModelError::Range {
            spot,
            key: Key::Kind,
        }),
    }
}

fn point_at(spot: Spot, numbers: &[i64]) -> Result<Point, ModelError>
    ensures { Gives (λ p. p) result (ranged spot Key.At (point_of numbers.now)) }
{
    match point(numbers) {
        Some(at) => Ok(at),
        None => Err(ModelError::Range { spot, key: Key::At }),
    }
}

fn force_at(spot: Spot, numbers: &[i64]) -> Result<(i64, i64), ModelError>
    ensures { Gives (λ f. f) result (ranged spot Key.Force (force_of numbers.now)) }
{
    match force(numbers) {
        Some(parts) => Ok(parts),
        None => Err(ModelError::Range {
            spot,
            key: Key::Force,
        }),
    }
}

#[tactic(auto, unfolding(crate::specs::Content::add_load))]
fn add(
    index: usize,
    so_far: &mut Vec<Load>,
    bodies: &Bodies,
    raw: &RawLoad,
) -> Result<(), ModelError>
    ensures { Gives (λ _. so_far.new.items) result (add_load bodies.now index so_far.old.items (raw_load raw.now)) }
{
    let spot = Spot::Load(index);
    let live = live_at(spot, raw.kind.as_str())?;
    let at = point_at(spot, raw.at.as_slice())?;
    let (fx, fy) = force_at(spot, raw.force.as_slice())?;
    let body = found(
        bodies.number(raw.block.as_str()),
        ModelError::NoBlock { load: index },
    )?;
    unless(
        bodies.is_free(body),
        ModelError::LoadOnFixed { load: index },
    )?;
    so_far.push(Load {
        body,
        live,
        at,
        fx,
        fy,
    })?;
    Ok(())
}

/// The loads, or the first fault of their content.
pub fn all_loads(alloc: Global, bodies: &Bodies, raws: &[RawLoad]) -> Result<Vec<Load>, ModelError>
    ensures { Gives (λ v. v.items) result (steps (add_load bodies.now) 0 [] (map raw_load raws.now)) }
{
    let mut so_far = Vec::new(alloc);
    for (index, raw) in raws.iter().enumerate() {
        add(index, &mut so_far, bodies, raw)?;
    }
    Ok(so_far)
}
