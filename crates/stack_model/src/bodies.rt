//! The blocks of a file, checked one after the other.

ghost use Rattle.std.specs.Prelude.{◌≡◌, List, [], ◌∷◌, ◌++◌, map, string_bytes, not, true, length, IfOk, OnOk};
ghost use Rattle.std.specs.Prelude.{count_by};
ghost use Rattle.stack_algebra.specs.Steps.{steps};
ghost use Rattle.stack_polygon.specs.Limits.{are_in_range};
ghost use Rattle.stack_polygon.specs.Admission.{is_count};
ghost use Rattle.stack_model.specs.Structure.{NamedBody};
ghost use Rattle.stack_model.specs.Raw.{raw_block, numbers_view};
ghost use Rattle.stack_model.specs.Gives.{Gives};
ghost use Rattle.stack_model.specs.Kept.{body_view};
ghost use Rattle.stack_model.specs.Limits.{corner_list_of};
ghost use Rattle.stack_model.specs.Content.{ranged, found as found_of, has_room as has_room_of, with_body, add_block};
ghost use Rattle.stack_model.specs.Content.{with_new_body, number_of, body_names, material_names};
ghost use Rattle.stack_model.specs.Content.{is_free as is_free_of};

use crate::errors::ModelError;
use crate::kept::KeptBody;
use crate::limits::{MOST_FIXED, corners, is_name};
use crate::materials::Materials;
use crate::names::Names;
use crate::outlines::outline;
use crate::places::{Key, Spot, What};
use crate::raw::RawBlock;
use crate::types::Body;
use stack_polygon::Point;
use stack_whole::{MOST_FREE, unless};
use std::alloc::Global;

/// The bodies, and their names.
#[derive(Drop)]
pub struct Bodies {
    names: Names,
    pub(crate) kept: Vec<KeptBody>,
}

impl std::marker::Model for Bodies {
    ghost Value = { List NamedBody };

    ghost view = { λ m. map body_view m.kept.items };

    ghost invariant = { λ m. m.names ≡ body_names (map body_view m.kept.items) };
}

fn corners_at(alloc: Global, spot: Spot, lists: &[Vec<i64>]) -> Result<Vec<Point>, ModelError>
    ensures value { Gives (λ v. v.items) result (ranged spot Key.Corners
        (corner_list_of (map numbers_view lists.now))) }
    ensures count { IfOk result (λ v. is_count (length v.items) ≡ true) }
    ensures range { IfOk result (λ v. are_in_range v.items ≡ true) }
{
    match corners(alloc, lists)? {
        Some(points) => Ok(points),
        None => Err(ModelError::Range {
            spot,
            key: Key::Corners,
        }),
    }
}

/// The number found, or else this fault.
pub fn found(number: Option<usize>, fault: ModelError) -> Result<usize, ModelError>
    ensures { Gives (λ n. n) result (found_of number fault) }
{
    match number {
        Some(n) => Ok(n),
        None => Err(fault),
    }
}

fn count_fixed(kept: &[KeptBody]) -> usize
    ensures { result ≡ count_by (λ b. b.fixed) (map body_view kept.now) }
{
    kept.iter().filter(|b| b.body.fixed).count()
}

fn count_free(kept: &[KeptBody]) -> usize
    ensures { result ≡ count_by (λ b. not b.fixed) (map body_view kept.now) }
{
    kept.iter().filter(|b| !b.body.fixed).count()
}

/// Room for one more fixed body, or one more free body.
fn has_room(fixed: bool, kept: &[KeptBody]) -> Result<(), ModelError>
    ensures { Gives (λ x. x) result (has_room_of fixed (map body_view kept.now)) }
{
    if fixed {
        unless(
            count_fixed(kept) < MOST_FIXED,
            ModelError::TooMany { what: What::Fixed },
        )
    } else {
        unless(
            count_free(kept) < MOST_FREE,
            ModelError::TooMany { what: What::Free },
        )
    }
}

/// The body of block `index`, whose name no earlier one has: its material is known, and there is room for it.
fn new_body(
    alloc: Global,
    index: usize,
    name: &str,
    material: Option<usize>,
    fixed: bool,
    corners: Vec<Point>,
    kept: &[KeptBody],
) -> Result<KeptBody, ModelError>
    requires count { is_count (length corners.items) ≡ true }
    requires range { are_in_range corners.items ≡ true }
    ensures name { IfOk result (λ b. string_bytes b.name ≡ name.now) }
    ensures value { Gives (λ b. map body_view kept.now ++ body_view b ∷ []) result
        (with_new_body index name.now material fixed corners.items (map body_view kept.now)) }
{
    let number = found(material, ModelError::NoMaterial { block: index })?;
    let outline = outline(index, corners)?;
    has_room(fixed, kept)?;
    Ok(KeptBody {
        name: String::from_str(alloc, name)?,
        body: Body {
            material: number,
            fixed,
        },
        outline,
    })
}

impl Bodies {
    /// The number of the body with a name.
    pub fn number(&self, name: &str) -> Option<usize>
        ensures { result ≡ number_of name.now (body_names self.now) }
    {
        self.names.number(name)
    }

    /// Whether the body with a number isn't fixed.
    pub fn is_free(&self, n: usize) -> bool
        ensures { result ≡ is_free_of n self.now }
    {
        match self.kept.get(n) {
            Some(b) => !b.body.fixed,
            None => false,
        }
    }
}

/// One more body, from the part of block `index`, with this material and these corners.
#[tactic(auto, unfolding(crate::specs::Content::with_body))]
fn keep(
    alloc: Global,
    index: usize,
    names: &mut Names,
    kept: &mut Vec<KeptBody>,
    raw: &RawBlock,
    material: Option<usize>,
    corners: Vec<Point>,
) -> Result<(), ModelError>
    requires count { is_count (length corners.items) ≡ true }
    requires range { are_in_range corners.items ≡ true }
    requires names { names.old ≡ body_names (map body_view kept.old.items) }
    ensures value { Gives (λ _. map body_view kept.new.items) result
        (with_body index (raw_block raw.now).name material raw.now.fixed corners.items (map body_view kept.old.items)) }
    ensures names { OnOk result (names.new ≡ body_names (map body_view kept.new.items)) }
{
    let name = raw.name.as_str();
    if !names.add(alloc, name)? {
        return Err(ModelError::SameName {
            spot: Spot::Block(index),
        });
    }
    kept.push(new_body(
        alloc,
        index,
        name,
        material,
        raw.fixed,
        corners,
        kept.as_slice(),
    )?)?;
    Ok(())
}

/// One more body, from the part of block `index`.
#[tactic(auto, unfolding(crate::specs::Content::add_block))]
fn add(
    alloc: Global,
    index: usize,
    names: &mut Names,
    kept: &mut Vec<KeptBody>,
    materials: &Materials,
    raw: &RawBlock,
) -> Result<(), ModelError>
    requires { names.old ≡ body_names (map body_view kept.old.items) }
    ensures value { Gives (λ _. map body_view kept.new.items) result
        (add_block materials.now index (map body_view kept.old.items) (raw_block raw.now)) }
    ensures names { OnOk result (names.new ≡ body_names (map body_view kept.new.items)) }
{
    let spot = Spot::Block(index);
    unless(
        is_name(raw.name.as_str()),
        ModelError::Range {
            spot,
            key: Key::Name,
        },
    )?;
    let corners = corners_at(alloc, spot, raw.corners.as_slice())?;
    let material = materials.number(raw.material.as_str());
    keep(alloc, index, names, kept, raw, material, corners)
}

/// The bodies, or the first fault of their content.
pub fn all_bodies(
    alloc: Global,
    materials: &Materials,
    raws: &[RawBlock],
) -> Result<Bodies, ModelError>
    ensures { Gives (λ m. m) result (steps (add_block materials.now) 0 [] (map raw_block raws.now)) }
{
    let mut names = Names::new(alloc);
    let mut kept = Vec::new(alloc);
    for (index, raw) in raws.iter().enumerate() {
        add(alloc, index, &mut names, &mut kept, materials, raw)?;
    }
    Ok(Bodies { names, kept })
}
