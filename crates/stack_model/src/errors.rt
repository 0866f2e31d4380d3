//! Why parts make no model.

ghost use Rattle.std.specs.Prelude.{◌≡◌};
ghost use Rattle.stack_model.specs.declared.errors.ModelError.TheVariants.{Memory};

use crate::places::{Key, Spot, What};
use std::alloc::{AllocError, AllocFailed};
use thiserror::Error;

/// The first fault of the parts' content: the version and the sway come first, then materials, joints, blocks and
/// loads, each in its order. In each item the faults come in the order in which they stand here, but that the numbers
/// of items come before all items, and those of free and of fixed blocks last in a block. Items are numbered from 0.
#[derive(Clone, Copy, Debug, PartialEq, Eq, Error)]
pub enum ModelError {
    /// A name, a number, an array or a word is outside its limits.
    #[error("{key:?} of {spot:?} is outside its limits")]
    Range { spot: Spot, key: Key },
    /// An earlier material, or an earlier block, has the same name.
    #[error("{spot:?} has the name of an earlier one")]
    SameName { spot: Spot },
    /// No material has the name that the block gives.
    #[error("no material has the name that block {block} gives")]
    NoMaterial { block: usize },
    /// No block has the name that the load gives.
    #[error("no block has the name that load {load} gives")]
    NoBlock { load: usize },
    /// The corner list is strictly convex neither as it is written nor reversed, and this edge, from 0, is the
    /// first as it is written that doesn't have every other corner strictly left of it.
    #[error("block {block} is not convex at edge {edge}")]
    NotConvex { block: usize, edge: usize },
    /// The load's block is fixed.
    #[error("load {load} is on a fixed block")]
    LoadOnFixed { load: usize },
    /// More than 64 materials, 256 joints, 192 blocks, 128 free blocks, 64 fixed blocks or 256 loads.
    #[error("too many: {what:?}")]
    TooMany { what: What },
    /// Memory ran out.
    #[error("out of memory")]
    Memory,
    /// No material has a name that the joint gives.
    #[error("no material has a name that joint {joint} gives")]
    NoJointMaterial { joint: usize },
    /// An earlier joint is between the same two materials, in either order.
    #[error("joint {joint} is between the materials of an earlier one")]
    SameJoint { joint: usize },
}

impl From<AllocError> for ModelError {
    ghost from_gives = { λ _ e. e ≡ Memory };

    fn from(_e: AllocError) -> ModelError {
        ModelError::Memory
    }
}

impl<T: Drop> From<AllocFailed<T>> for ModelError {
    ghost from_gives = { λ _ e. e ≡ Memory };

    fn from(_e: AllocFailed<T>) -> ModelError {
        ModelError::Memory
    }
}
