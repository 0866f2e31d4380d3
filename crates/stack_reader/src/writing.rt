//! The text of a model's file.

ghost use Rattle.std.specs.Prelude.{◌≡◌, IfOk, OnOk, Ok, map};
ghost use Rattle.toml.specs.View.{table_view, items_view};
ghost use Rattle.stack_model.specs.ModelView.{model_view};
ghost use Rattle.stack_model.specs.Sound.{IsSound};
ghost use Rattle.stack_model.specs.Relisted.{material_listed, joint_listed, body_listed, load_listed, relisted};
ghost use Rattle.stack_reader.specs.Reading.{document_table, structure_of};
ghost use Rattle.stack_reader.specs.Writing.{material_data, joint_data, block_data, load_data, tables_data, first_data};
ghost use Rattle.stack_reader.specs.Writing.{head_data, second_data, parts_data, put_tables};
ghost use Rattle.stack_reader.specs.Keys.{word_of};

use crate::tables::{block_table, joint_table, load_table, material_table, put, put_pair};
use stack_model::{Key, Model, is_still};
use std::alloc::{AllocError, Global};
use toml::{Table, Value};

fn materials(alloc: Global, model: &Model) -> Result<Vec<Value>, AllocError>
    ensures { IfOk result (λ v. items_view v.items ≡ tables_data material_data
        (map material_listed (model_view model.now).materials)) }
{
    let mut list = Vec::new(alloc);
    for i in 0..model.materials() {
        list.push(Value::Table(material_table(alloc, model, i)?))?;
    }
    Ok(list)
}

fn joints(alloc: Global, model: &Model) -> Result<Vec<Value>, AllocError>
    ensures { IfOk result (λ v. items_view v.items ≡ tables_data joint_data
        (map (joint_listed (model_view model.now).materials) (model_view model.now).joints)) }
{
    let mut list = Vec::new(alloc);
    for i in 0..model.joints() {
        list.push(Value::Table(joint_table(alloc, model, i)?))?;
    }
    Ok(list)
}

fn blocks(alloc: Global, model: &Model) -> Result<Vec<Value>, AllocError>
    ensures sound { IsSound (model_view model.now) }
    ensures value { IfOk result (λ v. items_view v.items ≡ tables_data block_data
        (map (body_listed (model_view model.now).materials) (model_view model.now).bodies)) }
{
    let mut list = Vec::new(alloc);
    for i in 0..model.bodies() {
        list.push(Value::Table(block_table(alloc, model, i)?))?;
    }
    Ok(list)
}

fn loads(alloc: Global, model: &Model) -> Result<Vec<Value>, AllocError>
    ensures { IfOk result (λ v. items_view v.items ≡ tables_data load_data
        (map (load_listed (model_view model.now).bodies) (model_view model.now).loads)) }
{
    let mut list = Vec::new(alloc);
    for i in 0..model.loads() {
        list.push(Value::Table(load_table(alloc, model, i)?))?;
    }
    Ok(list)
}

/// Puts a list at a key, unless it is empty.
fn put_list(alloc: Global, table: &mut Table, key: Key, list: Vec<Value>) -> Result<(), AllocError>
    ensures { OnOk result (table_view table.new
        ≡ put_tables (word_of key) (items_view list.items) (table_view table.old)) }
{
    if list.is_empty() {
        return Ok(());
    }
    put(alloc, table, key, Value::Array(list))
}

/// The table of a model's file of version 1.
fn first_table(alloc: Global, model: &Model) -> Result<Table, AllocError>
    ensures { IfOk result (λ t. table_view t ≡ first_data (relisted (model_view model.now))) }
{
    let mut table = Table::new(alloc);
    let materials = materials(alloc, model)?;
    put_list(alloc, &mut table, Key::Material, materials)?;
    let loads = loads(alloc, model)?;
    put_list(alloc, &mut table, Key::Load, loads)?;
    let blocks = blocks(alloc, model)?;
    put_list(alloc, &mut table, Key::Block, blocks)?;
    Ok(table)
}

/// A table with the version and, unless it is (0, 0), the sway.
fn head_table(alloc: Global, model: &Model) -> Result<Table, AllocError>
    ensures { IfOk result (λ t. table_view t ≡ head_data (relisted (model_view model.now))) }
{
    let sway = model.sway();
    let mut table = Table::new(alloc);
    put(
        alloc,
        &mut table,
        Key::Version,
        Value::Integer(model.version()),
    )?;
    if is_still(sway) {
        return Ok(table);
    }
    put_pair(alloc, &mut table, Key::Sway, sway.0, sway.1)?;
    Ok(table)
}

/// The table of a model's file of version 2.
fn second_table(alloc: Global, model: &Model) -> Result<Table, AllocError>
    ensures { IfOk result (λ t. table_view t ≡ second_data (relisted (model_view model.now))) }
{
    let mut table = head_table(alloc, model)?;
    let materials = materials(alloc, model)?;
    put_list(alloc, &mut table, Key::Material, materials)?;
    let loads = loads(alloc, model)?;
    put_list(alloc, &mut table, Key::Load, loads)?;
    let joints = joints(alloc, model)?;
    put_list(alloc, &mut table, Key::Joint, joints)?;
    let blocks = blocks(alloc, model)?;
    put_list(alloc, &mut table, Key::Block, blocks)?;
    Ok(table)
}

/// The table of a model's file.
fn model_table(alloc: Global, model: &Model) -> Result<Table, AllocError>
    ensures sound { IsSound (model_view model.now) }
    ensures value { IfOk result (λ t. table_view t ≡ parts_data (relisted (model_view model.now))) }
{
    model.sound();
    if model.version() == 2 {
        second_table(alloc, model)
    } else {
        first_table(alloc, model)
    }
}

/// A TOML document that describes the model: `read_model` gives the same model of it, unless memory runs out. Its
/// layout is that of `toml`; lists without an item are left out, so that a table may be added at its end. `AllocError`
/// if memory ran out.
pub fn write_model(alloc: Global, model: &Model) -> Result<Vec<u8>, AllocError>
    ensures read { IfOk result (λ text. structure_of text.items ≡ Ok (model_view model.now)) }
    ensures table { IfOk result (λ t. document_table t.items ≡ Ok (parts_data (relisted (model_view model.now)))) }
{
    let table = model_table(alloc, model)?;
    match toml::table_to_string(alloc, &table) {
        Ok(text) => Ok(text.into_bytes()),
        Err(_) => Err(AllocError),
    }
}
