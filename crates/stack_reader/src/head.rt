//! The version and the sway at the top of the file.

ghost use Rattle.std.specs.Prelude.{◌≡◌, option_map};
ghost use Rattle.toml.specs.Data.{get_member};
ghost use Rattle.toml.specs.View.{table_view};
ghost use Rattle.stack_model.specs.Raw.{numbers_view};
ghost use Rattle.stack_reader.specs.Keys.{word_of};
ghost use Rattle.stack_reader.specs.Gives.{GivesRead};
ghost use Rattle.stack_reader.specs.Forms.{known_only};
ghost use Rattle.stack_reader.specs.Shape.{is_second as is_second_of, known_at_top, version_at as version_of};
ghost use Rattle.stack_reader.specs.Shape.{sway_at as sway_of, head_of_document};

use crate::errors::ReadError;
use crate::field::{refuse_unknown, value_at, wholes_in};
use crate::keys::word;
use stack_model::{Key, Spot};
use std::alloc::Global;
use toml::Table;

/// Whether the version is the whole number 2.
fn is_second(table: &Table) -> bool
    ensures { result ≡ is_second_of (get_member (word_of Key.Version) (table_view table.now)) }
{
    match value_at(table, word(Key::Version)) {
        Some(value) => match value.as_integer() {
            Some(version) => version == 2,
            None => false,
        },
        None => false,
    }
}

/// Refuses a key that the top may not have.
fn refuse_at_top(table: &Table) -> Result<(), ReadError>
    ensures { GivesRead (λ x. x) result (known_only Spot.Top (known_at_top (table_view table.now))
        (table_view table.now)) }
{
    if is_second(table) {
        refuse_unknown(
            table,
            Spot::Top,
            &[
                Key::Version,
                Key::Sway,
                Key::Material,
                Key::Joint,
                Key::Block,
                Key::Load,
            ],
        )
    } else {
        refuse_unknown(
            table,
            Spot::Top,
            &[Key::Version, Key::Material, Key::Block, Key::Load],
        )
    }
}

/// The version, 1 where its key is missing.
fn version_at(table: &Table) -> Result<i64, ReadError>
    ensures { GivesRead (λ z. z) result (version_of (get_member (word_of Key.Version) (table_view table.now))) }
{
    match value_at(table, word(Key::Version)) {
        Some(value) => match value.as_integer() {
            Some(version) => Ok(version),
            None => Err(ReadError::Kind {
                spot: Spot::Top,
                key: Key::Version,
            }),
        },
        None => Ok(1),
    }
}

/// The numbers of the sway, where its key stands.
fn sway_at(alloc: Global, table: &Table) -> Result<Option<Vec<i64>>, ReadError>
    ensures { GivesRead (option_map numbers_view) result
        (sway_of (get_member (word_of Key.Sway) (table_view table.now))) }
{
    match value_at(table, word(Key::Sway)) {
        Some(value) => match wholes_in(alloc, value)? {
            Some(numbers) => Ok(Some(numbers)),
            None => Err(ReadError::Kind {
                spot: Spot::Top,
                key: Key::Sway,
            }),
        },
        None => Ok(None),
    }
}

/// The version and the sway, where the top has no unknown key.
#[tactic(auto, unfolding(crate::specs::Shape::head_of_document))]
pub fn head(alloc: Global, table: &Table) -> Result<(i64, Option<Vec<i64>>), ReadError>
    ensures { GivesRead (λ h. (h.0, option_map numbers_view h.1)) result (head_of_document (table_view table.now)) }
{
    refuse_at_top(table)?;
    let version = version_at(table)?;
    let sway = sway_at(alloc, table)?;
    Ok((version, sway))
}
