//! The range of factors, and why there is none.

ghost use Rattle.std.specs.Prelude.{◌≡◌};
ghost use Rattle.stack_range.specs.declared.types.RangeError.TheVariants as range_error;

use stack_certificate::{Forces, Motion};
use stack_judge::JudgePlace;
use std::alloc::AllocError;

/// The greatest factor, or the least, which is judged as the greatest of the reversed model.
#[derive(Clone, Copy, Debug, PartialEq, Eq)]
pub enum Side {
    Greatest,
    Least,
}

/// An end of the range, on its side: a greatest factor with the forces that carry it and the motion that forbids more,
/// or forces of some factor and further ones that raise it without end.
#[derive(Debug, PartialEq, Eq, Drop)]
pub enum End {
    At(Forces, Motion),
    Unlimited(Forces, Forces),
}

/// Which factors are carried: none if the dead loads fall, or those between both ends. The least factor is minus the
/// one of its end.
#[derive(Debug, PartialEq, Eq, Drop)]
pub enum Range {
    Collapses(Motion),
    Between { least: End, greatest: End },
}

/// Why there is no range: the first side that is refused. The least side is judged after the greatest.
#[derive(Clone, Copy, Debug, PartialEq, Eq)]
pub enum RangeError {
    /// The first number that is more than 2^127 - 1 in size, in the run of this side or in what is made of its end.
    TooWide { side: Side, place: JudgePlace },
    /// A pivot of this side is due, and the budget's are done.
    Spent { side: Side },
    /// No live load is listed.
    NoLive,
    /// Memory ran out.
    Memory,
}

impl From<AllocError> for RangeError {
    ghost from_gives = { λ _ e. e ≡ range_error.Memory };

    fn from(_e: AllocError) -> RangeError {
        RangeError::Memory
    }
}
