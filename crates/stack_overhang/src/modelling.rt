//! The model of parts that have no fault of content.

ghost use Rattle.std.specs.Prelude.{◌≡◌, Ok, IsOk, IfOk, IfErr};
ghost use Rattle.stack_model.specs.Raw.{raw_parts};
ghost use Rattle.stack_model.specs.Content.{content_of};
ghost use Rattle.stack_model.specs.Parts.{IsOfVersion};
ghost use Rattle.stack_model.specs.ModelView.{model_view};
ghost use Rattle.stack_overhang.specs.declared.error.StackError.TheVariants.{Memory};

use crate::error::StackError;
use stack_model::{Model, ModelError, Parts};
use std::alloc::Global;

/// The model of parts without a fault.
pub fn model(alloc: Global, parts: Parts) -> Result<Model, StackError>
    requires none { IsOk (content_of (raw_parts parts)) }
    requires version { IsOfVersion (raw_parts parts) }
    ensures ok { IfOk result (λ m. content_of (raw_parts parts) ≡ Ok (model_view m)) }
    ensures memory { IfErr result (λ e. e ≡ Memory) }
{
    match Model::new(alloc, parts) {
        Ok(model) => Ok(model),
        Err(ModelError::Memory) => Err(StackError::Memory),
        Err(_) => unreachable!(),
    }
}
