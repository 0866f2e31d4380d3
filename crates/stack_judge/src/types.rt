//! Why there is no judgement.

ghost use Rattle.std.specs.Prelude.{◌≡◌};
ghost use Rattle.stack_judge.specs.declared.types.JudgeError.TheVariants as judge_error;

use stack_checker::CheckPlace;
use stack_extract::ExtractPlace;
use stack_run::RunPlace;
use std::alloc::AllocError;

/// Where a number is more than 2^127 - 1 in size.
#[derive(Clone, Copy, Debug, PartialEq, Eq)]
pub enum JudgePlace {
    /// In the run.
    Run(RunPlace),
    /// In the numbers that are made of its end.
    End(ExtractPlace),
    /// In the check of the certificate that these are.
    Check(CheckPlace),
}

/// Why a question has no answer.
#[derive(Clone, Copy, Debug, PartialEq, Eq)]
pub enum JudgeError {
    /// The first number that is more than 2^127 - 1 in size.
    TooWide(JudgePlace),
    /// A pivot is due, and this many are done.
    Spent { budget: u32 },
    /// The question is about live loads, and none is listed.
    NoLive,
    /// Memory ran out.
    Memory,
}

impl From<AllocError> for JudgeError {
    ghost from_gives = { λ _ e. e ≡ judge_error.Memory };

    fn from(_e: AllocError) -> JudgeError {
        JudgeError::Memory
    }
}
