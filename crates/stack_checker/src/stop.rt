//! Why a check ends before its last test.

ghost use Rattle.std.specs.Prelude.{◌≡◌};
ghost use Rattle.stack_checker.specs.WrittenTests.{made_at};
ghost use Rattle.stack_checker.specs.WrittenCheck.{in_part, answer_of};

use crate::types::{Check, CheckAt, CheckPlace, Part, Reason};
use stack_whole::{Whole, Wide};

/// The first test that fails, or the first number that is too wide.
#[derive(Clone, Copy)]
pub enum Stop {
    Rejected(Reason),
    TooWide(CheckAt),
}

/// A stop, with the part of the certificate in which the tests end.
#[derive(Clone, Copy)]
pub struct PartStop {
    pub part: Part,
    pub stop: Stop,
}

/// A number that isn't too wide, or else its place.
pub fn place(number: Result<Whole, Wide>, at: CheckAt) -> Result<Whole, Stop>
    ensures { result ≡ made_at number at }
{
    match number {
        Ok(whole) => Ok(whole),
        Err(Wide) => Err(Stop::TooWide(at)),
    }
}

/// The tests of a part of a certificate; where they end early, with that part.
pub fn in_part(part: Part, tested: Result<(), Stop>) -> Result<(), PartStop>
    ensures { result ≡ in_part part tested }
{
    match tested {
        Ok(()) => Ok(()),
        Err(stop) => Err(PartStop { part, stop }),
    }
}

/// What the tests of a certificate answer.
pub fn answer(tested: Result<(), PartStop>) -> Check
    ensures { result ≡ answer_of tested }
{
    match tested {
        Ok(()) => Check::Accepted,
        Err(
            PartStop {
                part,
                stop: Stop::Rejected(reason),
            },
        ) => Check::Rejected(part, reason),
        Err(
            PartStop {
                part,
                stop: Stop::TooWide(at),
            },
        ) => Check::TooWide(CheckPlace { part, at }),
    }
}
