//! Why a certificate has no table of forces.

ghost use Rattle.std.specs.Prelude.{◌≡◌};
ghost use Rattle.stack_report.specs.declared.errors.ReportError.TheVariants as errors;

use std::alloc::AllocError;

/// Why a certificate has no table of forces.
#[derive(Clone, Copy, Debug, PartialEq, Eq)]
pub enum ReportError {
    /// A number of the table is more than 2^127 - 1 in size. The index of the first one, in the order in which they are
    /// made.
    TooWide { index: usize },
    /// Memory ran out.
    Memory,
}

impl From<AllocError> for ReportError {
    ghost from_gives = { λ _ e. e ≡ errors.Memory };

    fn from(_e: AllocError) -> ReportError {
        ReportError::Memory
    }
}
