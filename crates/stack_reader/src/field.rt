//! One value of a table.

ghost use Rattle.std.specs.Prelude.{◌≡◌, IfOk, option_map, string_bytes};
ghost use Rattle.std.specs.List.{list_any};
ghost use Rattle.std.specs.Str.{bytes_eq};
ghost use Rattle.toml.specs.Data.{get_member, as_str, as_integer};
ghost use Rattle.toml.specs.View.{view, table_view, items_view};
ghost use Rattle.stack_reader.specs.Keys.{word_of};
ghost use Rattle.stack_model.specs.Raw.{lists_view, numbers_view};
ghost use Rattle.stack_reader.specs.Gives.{GivesRead};
ghost use Rattle.stack_reader.specs.Forms.{required, field, has_only, known_only, wholes_of, wholes_of_items};
ghost use Rattle.stack_reader.specs.Forms.{lists_of, lists_of_items, truth_at as truth_of};

use crate::errors::ReadError;
use crate::keys::word;
use stack_model::{Key, Spot};
use std::alloc::{AllocError, Global};
use toml::{Table, Value};

/// The value at a key.
pub fn value_at<'a>(table: &'a Table, text: &str) -> Option<&'a Value>
    ensures { option_map (λ v. view v.now) result ≡ get_member text.now (table_view table.now) }
{
    table.get(text)
}

fn is_word_of(known: &[Key], text: &str) -> bool
    ensures { result ≡ list_any (λ key. bytes_eq (word_of key) text.now) known.now }
{
    known.iter().any(|key| word(*key) == text)
}

/// Whether the table has no key but these.
fn has_only_keys(table: &Table, known: &[Key]) -> bool
    ensures { result ≡ has_only known.now (table_view table.now) }
{
    for (text, _) in table.iter() {
        if !is_word_of(known, text.as_str()) {
            return false;
        }
    }
    true
}

/// Refuses a table with a key that isn't one of the known ones.
pub fn refuse_unknown(table: &Table, spot: Spot, known: &[Key]) -> Result<(), ReadError>
    ensures { GivesRead (λ x. x) result (known_only spot known.now (table_view table.now)) }
{
    if has_only_keys(table, known) {
        Ok(())
    } else {
        Err(ReadError::UnknownKey { spot })
    }
}

fn required_at<'a>(table: &'a Table, spot: Spot, key: Key) -> Result<&'a Value, ReadError>
    ensures { GivesRead (λ v. view v.now) result (required spot key (get_member (word_of key) (table_view table.now))) }
{
    match value_at(table, word(key)) {
        Some(value) => Ok(value),
        None => Err(ReadError::Missing { spot, key }),
    }
}

/// The text at a key that must stand.
#[tactic(auto, unfolding(crate::specs::Forms::field))]
pub fn text_at(alloc: Global, table: &Table, spot: Spot, key: Key) -> Result<String, ReadError>
    ensures { GivesRead string_bytes result (field as_str spot key (table_view table.now)) }
{
    let value = required_at(table, spot, key)?;
    match value.as_str() {
        Some(text) => Ok(String::from_str(alloc, text)?),
        None => Err(ReadError::Kind { spot, key }),
    }
}

/// The whole number at a key that must stand.
#[tactic(auto, unfolding(crate::specs::Forms::field))]
pub fn whole_at(table: &Table, spot: Spot, key: Key) -> Result<i64, ReadError>
    ensures { GivesRead (λ z. z) result (field as_integer spot key (table_view table.now)) }
{
    let value = required_at(table, spot, key)?;
    match value.as_integer() {
        Some(number) => Ok(number),
        None => Err(ReadError::Kind { spot, key }),
    }
}

/// The truth value at a key, false where the key is missing.
pub fn truth_at(table: &Table, spot: Spot, key: Key) -> Result<bool, ReadError>
    ensures { GivesRead (λ b. b) result (truth_of spot key (get_member (word_of key) (table_view table.now))) }
{
    match value_at(table, word(key)) {
        Some(value) => match value.as_bool() {
            Some(truth) => Ok(truth),
            None => Err(ReadError::Kind { spot, key }),
        },
        None => Ok(false),
    }
}

/// The whole numbers of an array, where it has no other items.
fn wholes(alloc: Global, items: &[Value]) -> Result<Option<Vec<i64>>, AllocError>
    ensures { IfOk result (λ found. option_map numbers_view found ≡ wholes_of_items (items_view items.now)) }
{
    let mut numbers = Vec::new(alloc);
    for item in items {
        match item.as_integer() {
            Some(number) => numbers.push(number)?,
            None => return Ok(None),
        }
    }
    Ok(Some(numbers))
}

/// The whole numbers of a value, where it is an array of them.
pub fn wholes_in(alloc: Global, value: &Value) -> Result<Option<Vec<i64>>, AllocError>
    ensures { IfOk result (λ found. option_map numbers_view found ≡ wholes_of (view value.now)) }
{
    match value.as_array() {
        Some(items) => wholes(alloc, items.as_slice()),
        None => Ok(None),
    }
}

/// The whole numbers of the array at a key that must stand.
#[tactic(auto, unfolding(crate::specs::Forms::field))]
pub fn wholes_at(alloc: Global, table: &Table, spot: Spot, key: Key) -> Result<Vec<i64>, ReadError>
    ensures { GivesRead numbers_view result (field wholes_of spot key (table_view table.now)) }
{
    let value = required_at(table, spot, key)?;
    match wholes_in(alloc, value)? {
        Some(numbers) => Ok(numbers),
        None => Err(ReadError::Kind { spot, key }),
    }
}

/// The lists of whole numbers of an array, where it has no other items.
fn lists(alloc: Global, items: &[Value]) -> Result<Option<Vec<Vec<i64>>>, AllocError>
    ensures { IfOk result (λ found. option_map lists_view found ≡ lists_of_items (items_view items.now)) }
{
    let mut found = Vec::new(alloc);
    for item in items {
        match wholes_in(alloc, item)? {
            Some(numbers) => found.push(numbers)?,
            None => return Ok(None),
        }
    }
    Ok(Some(found))
}

fn lists_in(alloc: Global, value: &Value) -> Result<Option<Vec<Vec<i64>>>, AllocError>
    ensures { IfOk result (λ found. option_map lists_view found ≡ lists_of (view value.now)) }
{
    match value.as_array() {
        Some(items) => lists(alloc, items.as_slice()),
        None => Ok(None),
    }
}

/// The lists of whole numbers of the array at a key that must stand.
#[tactic(auto, unfolding(crate::specs::Forms::field))]
pub fn lists_at(
    alloc: Global,
    table: &Table,
    spot: Spot,
    key: Key,
) -> Result<Vec<Vec<i64>>, ReadError>
    ensures { GivesRead lists_view result (field lists_of spot key (table_view table.now)) }
{
    let value = required_at(table, spot, key)?;
    match lists_in(alloc, value)? {
        Some(numbers) => Ok(numbers),
        None => Err(ReadError::Kind { spot, key }),
    }
}
