//! Files that the words name, and the model in one.

ghost use Rattle.stack_outside.specs.Seen.{seen_shelf};
ghost use Rattle.stack_reader.specs.Reading.{structure_of};
ghost use Rattle.stack_work.specs.Surveying.{read, model_step, modelled};
ghost use Rattle.stack_work.specs.Progress.{Does, DoesAlone, AreBytes, IsModel};

use stack_lines::{Input, Refusal};
use stack_model::Model;
use stack_outside::{Shelf, ShelfError};
use std::alloc::Global;

/// A file of at most this many bytes is read.
pub const GREATEST_FILE: usize = 262_144;

/// The bytes of a file. Refuses with `File`, `Long` or `Memory`.
pub fn read_file<F: Shelf>(shelf: &mut F, name: &str, input: Input) -> Result<Vec<u8>, Refusal>
    ensures { Does AreBytes (read input name.now) (seen_shelf F.Shelf shelf.old shelf.new) result }
{
    match shelf.read(name, GREATEST_FILE) {
        Ok(bytes) => Ok(bytes),
        Err(ShelfError::Failed) => Err(Refusal::File(input)),
        Err(ShelfError::TooLong) => Err(Refusal::Long(input)),
        Err(ShelfError::Memory) => Err(Refusal::Memory),
    }
}

/// The model in a text.
fn model_text(alloc: Global, text: &[u8]) -> Result<Model, Refusal>
    ensures { DoesAlone IsModel (model_step (structure_of text.now)) result }
{
    match stack_reader::read_model(alloc, text) {
        Ok(model) => Ok(model),
        Err(fault) => Err(Refusal::from(fault)),
    }
}

/// The model in a file.
pub fn model_file<F: Shelf>(alloc: Global, shelf: &mut F, name: &str) -> Result<Model, Refusal>
    ensures { Does IsModel (modelled name.now) (seen_shelf F.Shelf shelf.old shelf.new) result }
{
    match read_file(shelf, name, Input::Model) {
        Ok(text) => model_text(alloc, text.as_slice()),
        Err(refusal) => Err(refusal),
    }
}
