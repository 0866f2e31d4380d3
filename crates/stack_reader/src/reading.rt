//! The model of a file's bytes.

ghost use Rattle.std.specs.Prelude.{◌≡◌};
ghost use Rattle.toml.specs.View.{table_view};
ghost use Rattle.stack_model.specs.ModelView.{model_view};
ghost use Rattle.stack_model.specs.Raw.{raw_parts};
ghost use Rattle.stack_model.specs.Content.{content_of};
ghost use Rattle.stack_model.specs.Parts.{IsOfVersion};
ghost use Rattle.stack_reader.specs.Gives.{GivesRead};
ghost use Rattle.stack_reader.specs.Reading.{document_table, within_file, structure_of};

use crate::errors::ReadError;
use crate::shape::shape;
use stack_model::{Model, ModelError, Parts};
use std::alloc::Global;
use toml::Table;

/// The table of a TOML document.
fn document(alloc: Global, text: &[u8]) -> Result<Table, ReadError>
    ensures { GivesRead table_view result (document_table text.now) }
{
    match toml::table_from_slice(alloc, text) {
        Ok(table) => Ok(table),
        Err(e) => {
            if e.is_memory() {
                return Err(ReadError::Memory);
            }
            Err(ReadError::NotToml)
        }
    }
}

fn model(alloc: Global, parts: Parts) -> Result<Model, ReadError>
    requires { IsOfVersion (raw_parts parts) }
    ensures { GivesRead model_view result (within_file (content_of (raw_parts parts))) }
{
    match Model::new(alloc, parts) {
        Ok(model) => Ok(model),
        Err(ModelError::Memory) => Err(ReadError::Memory),
        Err(fault) => Err(ReadError::Model(fault)),
    }
}

/// The model that the bytes of a TOML file describe, or their first fault. `toml` decides what a document is. Memory
/// may run out at any time.
#[tactic(auto, unfolding(crate::specs::Reading::structure_of, crate::specs::Reading::model_of))]
pub fn read_model(alloc: Global, text: &[u8]) -> Result<Model, ReadError>
    ensures { GivesRead model_view result (structure_of text.now) }
{
    let table = document(alloc, text)?;
    let parts = shape(alloc, &table)?;
    model(alloc, parts)
}
