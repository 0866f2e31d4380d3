//! The items of a model as tables.

ghost use Rattle.std.specs.Prelude.{◌≡◌, ◌<◌, [], ◌∷◌, IfOk, OnOk, length, map};
ghost use Rattle.toml.specs.Data.{string};
ghost use Rattle.toml.specs.View.{view, table_view, items_view, items_of};
ghost use Rattle.stack_model.specs.Structure.{material_of, joint_of, body_of, load_of};
ghost use Rattle.stack_model.specs.ModelView.{model_view};
ghost use Rattle.stack_model.specs.Relisted.{coordinates, material_listed, joint_listed, body_listed, load_listed};
ghost use Rattle.stack_reader.specs.Keys.{word_of};
ghost use Rattle.stack_reader.specs.Writing.{put_member, wholes_data, lists_data};
ghost use Rattle.stack_reader.specs.Writing.{material_data, joint_data, block_data, load_data};

use crate::keys::word;
use stack_model::{Key, Model};
use stack_polygon::{Point, Polygon};
use std::alloc::{AllocError, Global};
use toml::{Table, Value};

/// Puts a value at a key.
pub fn put(alloc: Global, table: &mut Table, key: Key, value: Value) -> Result<(), AllocError>
    ensures { OnOk result (table_view table.new ≡ put_member (word_of key) (view value) (table_view table.old)) }
{
    let text = String::from_str(alloc, word(key))?;
    let _ = table.insert(text, value)?;
    Ok(())
}

/// Puts a text at a key.
fn put_text(alloc: Global, table: &mut Table, key: Key, text: &str) -> Result<(), AllocError>
    ensures { OnOk result (table_view table.new ≡ put_member (word_of key) (string text.now) (table_view table.old)) }
{
    let value = Value::string(alloc, text)?;
    put(alloc, table, key, value)
}

/// An array of two whole numbers.
fn pair(alloc: Global, first: i64, second: i64) -> Result<Value, AllocError>
    ensures { IfOk result (λ v. view v ≡ wholes_data (first ∷ second ∷ [])) }
{
    let mut numbers = Vec::new(alloc);
    numbers.push(Value::Integer(first))?;
    numbers.push(Value::Integer(second))?;
    Ok(Value::Array(numbers))
}

/// Puts two whole numbers at a key.
pub fn put_pair(
    alloc: Global,
    table: &mut Table,
    key: Key,
    first: i64,
    second: i64,
) -> Result<(), AllocError>
    ensures { OnOk result (table_view table.new
        ≡ put_member (word_of key) (wholes_data (first ∷ second ∷ [])) (table_view table.old)) }
{
    let value = pair(alloc, first, second)?;
    put(alloc, table, key, value)
}

/// The coordinates of a point.
fn place(alloc: Global, at: Point) -> Result<Value, AllocError>
    ensures { IfOk result (λ v. view v ≡ wholes_data (coordinates at)) }
{
    pair(alloc, at.x, at.y)
}

/// The corners of an outline.
fn corners(alloc: Global, outline: &Polygon) -> Result<Vec<Value>, AllocError>
    ensures { IfOk result (λ v. items_view v.items ≡ items_of (map wholes_data (map coordinates outline.now))) }
{
    let mut list = Vec::new(alloc);
    for i in 0..outline.len() {
        list.push(place(alloc, outline.corner(i))?)?;
    }
    Ok(list)
}

/// Puts the corners of an outline at a key.
fn put_corners(
    alloc: Global,
    table: &mut Table,
    key: Key,
    outline: &Polygon,
) -> Result<(), AllocError>
    ensures { OnOk result (table_view table.new
        ≡ put_member (word_of key) (lists_data (map coordinates outline.now)) (table_view table.old)) }
{
    let list = corners(alloc, outline)?;
    put(alloc, table, key, Value::Array(list))
}

/// The table of material `i`.
pub fn material_table(alloc: Global, model: &Model, i: usize) -> Result<Table, AllocError>
    requires { i < length (model_view model.now).materials }
    ensures { IfOk result (λ t. table_view t ≡ material_data (material_listed (material_of (model_view model.now) i))) }
{
    let material = model.material(i);
    let mut table = Table::new(alloc);
    put_text(alloc, &mut table, Key::Name, model.material_name(i))?;
    put(
        alloc,
        &mut table,
        Key::Weight,
        Value::Integer(material.weight),
    )?;
    put_pair(alloc, &mut table, Key::Friction, material.p, material.q)?;
    Ok(table)
}

/// The table of joint `i`.
pub fn joint_table(alloc: Global, model: &Model, i: usize) -> Result<Table, AllocError>
    requires { i < length (model_view model.now).joints }
    ensures { IfOk result (λ t. table_view t ≡ joint_data (joint_listed (model_view model.now).materials
        (joint_of (model_view model.now) i))) }
{
    let joint = model.joint(i);
    let mut table = Table::new(alloc);
    put_text(
        alloc,
        &mut table,
        Key::First,
        model.material_name(joint.first),
    )?;
    put_text(
        alloc,
        &mut table,
        Key::Second,
        model.material_name(joint.second),
    )?;
    put_pair(alloc, &mut table, Key::Friction, joint.p, joint.q)?;
    Ok(table)
}

/// The table of body `i`.
pub fn block_table(alloc: Global, model: &Model, i: usize) -> Result<Table, AllocError>
    requires { i < length (model_view model.now).bodies }
    ensures { IfOk result (λ t. table_view t ≡ block_data (body_listed (model_view model.now).materials
        (body_of (model_view model.now) i))) }
{
    let body = model.body(i);
    let mut table = Table::new(alloc);
    put_text(alloc, &mut table, Key::Name, model.name(i))?;
    put_text(
        alloc,
        &mut table,
        Key::Material,
        model.material_name(body.material),
    )?;
    put(alloc, &mut table, Key::Fixed, Value::Boolean(body.fixed))?;
    put_corners(alloc, &mut table, Key::Corners, model.polygon(i))?;
    Ok(table)
}

/// The table of load `i`.
pub fn load_table(alloc: Global, model: &Model, i: usize) -> Result<Table, AllocError>
    requires { i < length (model_view model.now).loads }
    ensures { IfOk result (λ t. table_view t ≡ load_data (load_listed (model_view model.now).bodies
        (load_of (model_view model.now) i))) }
{
    let load = model.load(i);
    let mut table = Table::new(alloc);
    put_text(alloc, &mut table, Key::Block, model.name(load.body))?;
    put_text(
        alloc,
        &mut table,
        Key::Kind,
        if load.live { "live" } else { "dead" },
    )?;
    put_pair(alloc, &mut table, Key::At, load.at.x, load.at.y)?;
    put_pair(alloc, &mut table, Key::Force, load.fx, load.fy)?;
    Ok(table)
}
