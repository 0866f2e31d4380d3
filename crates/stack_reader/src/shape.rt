//! What a table lists, or its first fault of shape.

ghost use Rattle.std.specs.Prelude.{map, IfOk};
ghost use Rattle.stack_model.specs.Parts.{IsOfVersion, MaterialPart, JointPart, BlockPart, LoadPart};
ghost use Rattle.toml.specs.View.{view, table_view, items_view};
ghost use Rattle.stack_model.specs.Raw.{raw_material, raw_joint, raw_block, raw_load, raw_parts};
ghost use Rattle.stack_reader.specs.Gives.{GivesRead};
ghost use Rattle.stack_reader.specs.Shape.{material_part, joint_part, block_part, load_part, in_table, each_of};
ghost use Rattle.stack_reader.specs.Shape.{parts_of_document};

use crate::errors::ReadError;
use crate::field::{lists_at, refuse_unknown, text_at, truth_at, whole_at, wholes_at};
use crate::head::head;
use crate::list::list_at;
use stack_model::{Key, Parts, RawBlock, RawJoint, RawLoad, RawMaterial, Spot};
use std::alloc::Global;
use toml::{Table, Value};

/// An item of a list: a material, a joint, a block or a load.
trait Item: Drop {
    ghost use Rattle.std.specs.Prelude.{ℕ, Result};
    ghost use Rattle.toml.specs.Data.{Members};
    ghost use Rattle.stack_reader.specs.declared.errors.ReadError.{ReadError};

    // What is listed of it.
    ghost Said: { Type 0 };

    // What was listed of an item that is read.
    ghost raw: { Self → Said };

    // What the table of the item with a number says, or its first fault of shape.
    ghost part: { ℕ → Members → Result Said ReadError };

    /// What its table says, or the first fault of shape there.
    fn of_table(alloc: Global, index: usize, table: &Table) -> Result<Self, ReadError>
        ensures { GivesRead raw result (part index (table_view table.now)) };
}

impl Item for RawMaterial {
    ghost Said = { MaterialPart };

    ghost raw = { raw_material };

    ghost part = { material_part };

    #[tactic(auto, unfolding(crate::specs::Shape::material_part))]
    fn of_table(alloc: Global, index: usize, table: &Table) -> Result<RawMaterial, ReadError> {
        let spot = Spot::Material(index);
        refuse_unknown(table, spot, &[Key::Name, Key::Weight, Key::Friction])?;
        let name = text_at(alloc, table, spot, Key::Name)?;
        let weight = whole_at(table, spot, Key::Weight)?;
        let friction = wholes_at(alloc, table, spot, Key::Friction)?;
        Ok(RawMaterial {
            name,
            weight,
            friction,
        })
    }
}

impl Item for RawJoint {
    ghost Said = { JointPart };

    ghost raw = { raw_joint };

    ghost part = { joint_part };

    #[tactic(auto, unfolding(crate::specs::Shape::joint_part))]
    fn of_table(alloc: Global, index: usize, table: &Table) -> Result<RawJoint, ReadError> {
        let spot = Spot::Joint(index);
        refuse_unknown(table, spot, &[Key::First, Key::Second, Key::Friction])?;
        let first = text_at(alloc, table, spot, Key::First)?;
        let second = text_at(alloc, table, spot, Key::Second)?;
        let terms = wholes_at(alloc, table, spot, Key::Friction)?;
        Ok(RawJoint {
            first,
            second,
            friction: terms,
        })
    }
}

impl Item for RawBlock {
    ghost Said = { BlockPart };

    ghost raw = { raw_block };

    ghost part = { block_part };

    #[tactic(auto, unfolding(crate::specs::Shape::block_part))]
    fn of_table(alloc: Global, index: usize, table: &Table) -> Result<RawBlock, ReadError> {
        let spot = Spot::Block(index);
        refuse_unknown(
            table,
            spot,
            &[Key::Name, Key::Material, Key::Fixed, Key::Corners],
        )?;
        let name = text_at(alloc, table, spot, Key::Name)?;
        let material = text_at(alloc, table, spot, Key::Material)?;
        let fixed = truth_at(table, spot, Key::Fixed)?;
        let corners = lists_at(alloc, table, spot, Key::Corners)?;
        Ok(RawBlock {
            name,
            material,
            fixed,
            corners,
        })
    }
}

impl Item for RawLoad {
    ghost Said = { LoadPart };

    ghost raw = { raw_load };

    ghost part = { load_part };

    #[tactic(auto, unfolding(crate::specs::Shape::load_part))]
    fn of_table(alloc: Global, index: usize, table: &Table) -> Result<RawLoad, ReadError> {
        let spot = Spot::Load(index);
        refuse_unknown(table, spot, &[Key::Block, Key::Kind, Key::At, Key::Force])?;
        let block = text_at(alloc, table, spot, Key::Block)?;
        let kind = text_at(alloc, table, spot, Key::Kind)?;
        let at = wholes_at(alloc, table, spot, Key::At)?;
        let force = wholes_at(alloc, table, spot, Key::Force)?;
        Ok(RawLoad {
            block,
            kind,
            at,
            force,
        })
    }
}

/// The item with a number in the list at a key of the top.
#[tactic(auto, unfolding(crate::specs::Shape::in_table))]
fn item_of<I: Item>(alloc: Global, key: Key, index: usize, value: &Value) -> Result<I, ReadError>
    ensures { GivesRead I.raw result (in_table I.part key index (view value.now)) }
{
    match value.as_table() {
        Some(table) => I::of_table(alloc, index, table),
        None => Err(ReadError::Kind {
            spot: Spot::Top,
            key,
        }),
    }
}

/// The items of the list at a key of the top.
fn items<I: Item>(alloc: Global, key: Key, values: &[Value]) -> Result<Vec<I>, ReadError>
    ensures { GivesRead (λ v. map I.raw v.items) result (each_of (in_table I.part key) 0 (items_view values.now)) }
{
    let mut found = Vec::new(alloc);
    for (index, value) in values.iter().enumerate() {
        found.push(item_of(alloc, key, index, value)?)?;
    }
    Ok(found)
}

#[tactic(auto, unfolding(crate::specs::Shape::parts_of_document))]
fn listed(alloc: Global, table: &Table) -> Result<Parts, ReadError>
    ensures { GivesRead raw_parts result (parts_of_document (table_view table.now)) }
{
    let (version, sway) = head(alloc, table)?;
    let material_items = list_at(table, Key::Material)?;
    let joint_items = list_at(table, Key::Joint)?;
    let block_items = list_at(table, Key::Block)?;
    let load_items = list_at(table, Key::Load)?;
    let materials = items(alloc, Key::Material, material_items)?;
    let joints = items(alloc, Key::Joint, joint_items)?;
    let blocks = items(alloc, Key::Block, block_items)?;
    let loads = items(alloc, Key::Load, load_items)?;
    Ok(Parts {
        version,
        sway,
        materials,
        joints,
        blocks,
        loads,
    })
}

/// What the table lists: joints and a sway in version 2 alone.
pub fn shape(alloc: Global, table: &Table) -> Result<Parts, ReadError>
    ensures parts { GivesRead raw_parts result (parts_of_document (table_view table.now)) }
    ensures version { IfOk result (λ p. IsOfVersion (raw_parts p)) }
{
    match listed(alloc, table) {
        Ok(parts) => Ok(parts),
        Err(error) => Err(error),
    }
}
