//! The program over standard output and standard error.

ghost use Rattle.std.specs.Prelude.{◌≡◌};
ghost use Rattle.stack_outside.specs.Seen.{seen_shelf, seen_counted};
ghost use Rattle.stack_cli.specs.Words.{form_of_given, AreWordsAfterName};
ghost use Rattle.stack_said.specs.Runs.{Runs};

use crate::given::{Given, run_given};
use stack_outside::{FaultSink, OutputSink, Shelf};
use std::alloc::Global;
use std::env::Args;
use std::io::{self, ErrorKind};

/// The words after the program's own name, of all that the runtime gives.
pub fn words_given(alloc: Global, args: io::Result<Args>) -> Given
    ensures { AreWordsAfterName args result }
{
    match args {
        Ok(args) => match args.skip(1).collect::<Vec<String>>(alloc) {
            Ok(words) => Given::Words(words),
            Err(_) => Given::Memory,
        },
        Err(e) if e.kind() == ErrorKind::OutOfMemory => Given::Memory,
        Err(_) => Given::Unreadable,
    }
}

/// Does what the words ask for, as `run_given` does, with standard output for answers and standard error for refusals.
/// The two are of two types, so that neither is taken for the other.
pub fn run_standard<F: Shelf>(
    alloc: Global,
    given: Given,
    shelf: &mut F,
    out: &mut OutputSink,
    err: &mut FaultSink,
) -> u8
    ensures { Runs result (form_of_given given) (seen_shelf F.Shelf shelf.old shelf.new)
        (seen_counted out.old.sink.faults out.new.sink.faults out.old.calls out.new.calls)
        (seen_counted err.old.sink.faults err.new.sink.faults err.old.calls err.new.calls) }
{
    run_given(alloc, given, shelf, out, err)
}
