//! The words as the runtime gives them.

ghost use Rattle.std.specs.Prelude.{◌≡◌};
ghost use Rattle.stack_outside.specs.Seen.{seen_shelf, seen_stream};
ghost use Rattle.stack_cli.specs.Words.{form_of_given};
ghost use Rattle.stack_said.specs.Runs.{Runs};

use crate::command::{deliver, run};
use stack_lines::Refusal;
use stack_outside::{Shelf, Sink};
use stack_said::printed_is_accepted;
use stack_walls::walls_can_be_surveyed;
use std::alloc::Global;

/// What the runtime gave of the words after the program's own name.
#[derive(Debug, Drop)]
pub enum Given {
    /// All of them.
    Words(Vec<String>),
    /// One of them isn't UTF-8.
    Unreadable,
    /// There was no memory for them.
    Memory,
}

/// Does what the words ask for, as `run` does. Words have no form if one of them can't be read, or if there was no
/// memory for them.
pub fn run_given<F: Shelf, O: Sink, E: Sink>(
    alloc: Global,
    given: Given,
    shelf: &mut F,
    out: &mut O,
    err: &mut E,
) -> u8
    ensures runs { Runs result (form_of_given given) (seen_shelf F.Shelf shelf.old shelf.new)
        (seen_stream O.Sink out.old out.new) (seen_stream E.Sink err.old err.new) }
    ensures unreadable { given ≡ Given.Unreadable → result ≡ 2 }
    ensures memory { given ≡ Given.Memory → result ≡ 11 }
{
    printed_is_accepted();
    walls_can_be_surveyed();
    match given {
        Given::Words(words) => run(alloc, words.as_slice(), shelf, out, err),
        Given::Unreadable => deliver(alloc, Err(Refusal::Words), out, err),
        Given::Memory => deliver(alloc, Err(Refusal::Memory), out, err),
    }
}
