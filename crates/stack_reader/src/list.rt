//! The lists of tables at the top of the file.

ghost use Rattle.std.specs.Prelude.{◌≡◌};
ghost use Rattle.toml.specs.Data.{get_member};
ghost use Rattle.toml.specs.View.{table_view, items_view};
ghost use Rattle.stack_reader.specs.Keys.{word_of};
ghost use Rattle.stack_reader.specs.Gives.{GivesRead};
ghost use Rattle.stack_reader.specs.Forms.{are_tables};
ghost use Rattle.stack_reader.specs.Shape.{list_at as list_of};

use crate::errors::ReadError;
use crate::field::value_at;
use crate::keys::word;
use stack_model::{Key, Spot};
use toml::{Table, Value};

fn all_tables(items: &[Value]) -> bool
    ensures { result ≡ are_tables (items_view items.now) }
{
    for item in items {
        if item.as_table().is_none() {
            return false;
        }
    }
    true
}

/// The tables at a key of the top; none where the key is missing.
pub fn list_at<'a>(table: &'a Table, key: Key) -> Result<&'a [Value], ReadError>
    ensures { GivesRead (λ v. items_view v.now) result (list_of key (get_member (word_of key) (table_view table.now))) }
{
    let Some(value) = value_at(table, word(key)) else {
        return Ok(&[]);
    };
    match value.as_array() {
        Some(items) => {
            if all_tables(items.as_slice()) {
                Ok(items.as_slice())
            } else {
                Err(ReadError::Kind {
                    spot: Spot::Top,
                    key,
                })
            }
        }
        None => Err(ReadError::Kind {
            spot: Spot::Top,
            key,
        }),
    }
}
