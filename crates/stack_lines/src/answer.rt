//! The answers, as text.

ghost use Rattle.std.specs.Prelude.{◌≡◌, IfOk, string_bytes};
ghost use Rattle.stack_lines.specs.Verdicts.{verdict_status};
ghost use Rattle.stack_lines.specs.CheckText.{block_name as name_of_block, rejected_text, place_of};
ghost use Rattle.stack_lines.specs.Refusals.{place_view};

use crate::refusal::{BlockSum, Place, part_text};
use stack_checker::{CheckAt, Part, Reason};
use stack_contact::Survey;
use stack_report::number;
use stack_whole::Decimal;
use std::alloc::{AllocError, Global};

/// What an answer says.
#[derive(Clone, Copy)]
pub enum Verdict {
    /// The answer is yes: a certificate is accepted, the structure carries what is asked, a table is given.
    Affirmed,
    /// It is no: the certificate is rejected, or the structure collapses.
    Denied,
}

impl Verdict {
    /// The status with which the program ends if the answer is written.
    pub fn status(self) -> u8
        ensures { result ≡ verdict_status self }
    {
        match self {
            Verdict::Affirmed => 0,
            Verdict::Denied => 1,
        }
    }
}

/// A whole answer, before it is written.
#[derive(Drop)]
pub struct Answer {
    pub verdict: Verdict,
    pub text: Vec<u8>,
}

/// The name of a free block, counted from 0 among the free blocks; empty if there is none. Takes no memory.
pub fn block_name(survey: &Survey, block: usize) -> &str
    ensures { result.now ≡ name_of_block survey.now.structure block }
{
    if block < survey.free_count() {
        survey.model().name(survey.free(block))
    } else {
        ""
    }
}

/// The line that says why a certificate is rejected, with its line feed.
pub fn rejection(
    alloc: Global,
    survey: &Survey,
    part: Part,
    reason: Reason,
) -> Result<String, AllocError>
    ensures { IfOk result (λ s. string_bytes s ≡ rejected_text survey.now.structure part reason) }
{
    let part = part_text(part);
    match reason {
        Reason::Count => format!(in alloc; "rejected {part} count\n"),
        Reason::Scale => format!(in alloc; "rejected {part} scale\n"),
        Reason::Factor => format!(in alloc; "rejected {part} factor\n"),
        Reason::Push { k } => format!(in alloc; "rejected {part} push {}\n", Decimal(number(k))),
        Reason::Cone { k } => format!(in alloc; "rejected {part} cone {}\n", Decimal(number(k))),
        Reason::Balance { block, axis } => {
            let name = block_name(survey, block);
            let sum = BlockSum { name, axis };
            format!(in alloc; "rejected {part} {sum}\n")
        }
        Reason::Resisted { k } => format!(in alloc;
            "rejected {part} resisted {}\n",
            Decimal(number(k))
        ),
        Reason::NoWork => format!(in alloc; "rejected {part} no work\n"),
        Reason::Apart => format!(in alloc; "rejected {part} apart\n"),
    }
}

/// The place of a number that is too wide, with the block's name.
pub fn wide_place(alloc: Global, survey: &Survey, at: CheckAt) -> Result<Place, AllocError>
    ensures { IfOk result (λ p. place_view p ≡ place_of survey.now.structure at) }
{
    match at {
        CheckAt::Cone { k } => Ok(Place::Cone { k }),
        CheckAt::Balance { block, axis } => Ok(Place::Balance {
            name: String::from_str(alloc, block_name(survey, block))?,
            axis,
        }),
        CheckAt::Resisted { k } => Ok(Place::Resisted { k }),
        CheckAt::Work => Ok(Place::Work),
        CheckAt::Apart => Ok(Place::Apart),
    }
}
