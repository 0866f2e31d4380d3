//! The materials of a file, checked one after the other.

ghost use Rattle.std.specs.Prelude.{◌≡◌, List, [], map, pos, OnOk};
ghost use Rattle.stack_model.specs.Structure.{NamedMaterial};
ghost use Rattle.stack_model.specs.Kept.{material_view};
ghost use Rattle.stack_model.specs.Raw.{raw_material};
ghost use Rattle.stack_model.specs.Gives.{Gives};
ghost use Rattle.stack_model.specs.Limits.{friction_of};
ghost use Rattle.stack_algebra.specs.Steps.{steps};
ghost use Rattle.stack_model.specs.Content.{ranged, with_material, add_material, number_of};
ghost use Rattle.stack_model.specs.Content.{material_names};

use crate::errors::ModelError;
use crate::kept::KeptMaterial;
use crate::limits::{friction, is_between, is_name};
use crate::names::Names;
use crate::places::{Key, Spot};
use crate::raw::RawMaterial;
use crate::types::Material;
use stack_whole::{GREATEST_WEIGHT, unless};
use std::alloc::Global;

/// The materials, and their names.
#[derive(Drop)]
pub struct Materials {
    names: Names,
    pub(crate) kept: Vec<KeptMaterial>,
}

impl std::marker::Model for Materials {
    ghost Value = { List NamedMaterial };

    ghost view = { λ m. map material_view m.kept.items };

    ghost invariant = { λ m. m.names ≡ material_names (map material_view m.kept.items) };
}

/// A coefficient of friction at its place.
pub fn friction_at(spot: Spot, numbers: &[i64]) -> Result<(i64, i64), ModelError>
    ensures { Gives (λ x. x) result (ranged spot Key.Friction (friction_of numbers.now)) }
{
    match friction(numbers) {
        Some(terms) => Ok(terms),
        None => Err(ModelError::Range {
            spot,
            key: Key::Friction,
        }),
    }
}

impl Materials {
    /// The number of the material with a name.
    pub fn number(&self, name: &str) -> Option<usize>
        ensures { result ≡ number_of name.now (material_names self.now) }
    {
        self.names.number(name)
    }
}

/// One more material, with a name of its own.
#[tactic(auto, unfolding(crate::specs::Content::with_material))]
fn keep(
    alloc: Global,
    names: &mut Names,
    kept: &mut Vec<KeptMaterial>,
    spot: Spot,
    name: &str,
    material: Material,
) -> Result<(), ModelError>
    requires { names.old ≡ material_names (map material_view kept.old.items) }
    ensures value { Gives (λ _. map material_view kept.new.items) result (with_material spot (record {
      name = name.now;
      weight = material.weight;
      p = material.p;
      q = material.q;
    }) (map material_view kept.old.items)) }
    ensures names { OnOk result (names.new ≡ material_names (map material_view kept.new.items)) }
{
    if !names.add(alloc, name)? {
        return Err(ModelError::SameName { spot });
    }
    kept.push(KeptMaterial {
        name: String::from_str(alloc, name)?,
        material,
    })?;
    Ok(())
}

/// One more material, as material `index`.
#[tactic(auto, unfolding(crate::specs::Content::add_material))]
fn add(
    alloc: Global,
    index: usize,
    names: &mut Names,
    kept: &mut Vec<KeptMaterial>,
    raw: &RawMaterial,
) -> Result<(), ModelError>
    requires { names.old ≡ material_names (map material_view kept.old.items) }
    ensures value { Gives (λ _. map material_view kept.new.items) result
        (add_material index (map material_view kept.old.items) (raw_material raw.now)) }
    ensures names { OnOk result (names.new ≡ material_names (map material_view kept.new.items)) }
{
    let spot = Spot::Material(index);
    unless(
        is_name(raw.name.as_str()),
        ModelError::Range {
            spot,
            key: Key::Name,
        },
    )?;
    unless(
        is_between(0, GREATEST_WEIGHT, raw.weight),
        ModelError::Range {
            spot,
            key: Key::Weight,
        },
    )?;
    let (p, q) = friction_at(spot, raw.friction.as_slice())?;
    let material = Material {
        weight: raw.weight,
        p,
        q,
    };
    keep(alloc, names, kept, spot, raw.name.as_str(), material)
}

/// The materials, or the first fault of their content.
pub fn all_materials(alloc: Global, raws: &[RawMaterial]) -> Result<Materials, ModelError>
    ensures { Gives (λ m. m) result (steps add_material 0 [] (map raw_material raws.now)) }
{
    let mut names = Names::new(alloc);
    let mut kept = Vec::new(alloc);
    for (index, raw) in raws.iter().enumerate() {
        add(alloc, index, &mut names, &mut kept, raw)?;
    }
    Ok(Materials { names, kept })
}
