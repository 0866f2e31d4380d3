//! Where the numbers of an end are too wide.

ghost use Rattle.std.specs.Prelude.{◌≡◌};
ghost use Rattle.stack_extract.specs.declared.types.ExtractError.TheVariants as extract_error;
ghost use Rattle.stack_extract.specs.Places.{extract_place};

use std::alloc::AllocError;

/// A list of numbers that is made of an end.
#[derive(Clone, Copy, Debug, PartialEq, Eq)]
pub enum Numbers {
    /// The values of the contact columns, and then of the factor.
    Forces,
    /// The objective cells of the artificial columns.
    Motion,
    /// The rates of the contact columns, and then of the factor.
    Ray,
}

/// A step from a list to the numbers of a certificate.
#[derive(Clone, Copy, Debug, PartialEq, Eq)]
pub enum EndStep {
    /// An objective cell minus 1; the index is its row.
    Shift,
    /// The common scale of the list; the index is that of an item.
    Scale,
    /// An item times the scale; the index is its own.
    Whole,
    /// The parts of a bearing's force; the index is the bearing's number, from 0.
    Part,
}

/// A number that is more than 2^127 - 1 in size.
#[derive(Clone, Copy, Debug, PartialEq, Eq)]
pub struct ExtractPlace {
    pub list: Numbers,
    pub step: EndStep,
    pub index: usize,
}

/// Why an end gives no numbers of 128 bits.
#[derive(Clone, Copy, Debug, PartialEq, Eq)]
pub enum ExtractError {
    /// The first number that is too wide.
    TooWide(ExtractPlace),
    /// Memory ran out.
    Memory,
}

impl From<AllocError> for ExtractError {
    ghost from_gives = { λ _ e. e ≡ extract_error.Memory };

    fn from(_e: AllocError) -> ExtractError {
        ExtractError::Memory
    }
}

/// The refusal at a place.
pub(crate) fn too_wide(list: Numbers, step: EndStep, index: usize) -> ExtractError
    ensures { result ≡ extract_error.TooWide (extract_place list step index) }
{
    ExtractError::TooWide(ExtractPlace { list, step, index })
}
