//! Which of the two standard streams is meant, and a stream that is one of two.

ghost use Rattle.std.specs.Prelude.{◌≡◌};
ghost use Rattle.stack_outside.specs.declared.stream.EitherStream.TheVariants.{Output, Fault};

use crate::error::CallFailed;
use crate::raw::RawStream;

/// Standard output or standard error.
#[derive(Clone, Copy, Debug, PartialEq, Eq)]
pub enum Stream {
    /// Standard output.
    Output,
    /// Standard error.
    Fault,
}

/// One stream of two kinds. It has no handle of the other one.
#[derive(Drop)]
pub enum EitherStream<O, E> {
    /// A stream for the output.
    Output(O),
    /// A stream for the errors.
    Fault(E),
}

impl<O: RawStream, E: RawStream> RawStream for EitherStream<O, E> {
    ghost taken = { elim [ Output o ↦ O.taken o | Fault e ↦ E.taken e ] };

    ghost failed = { elim [ Output o ↦ O.failed o | Fault e ↦ E.failed e ] };

    ghost never_fails = { elim [ Output o ↦ O.never_fails o | Fault e ↦ E.never_fails e ] };

    fn write_some(&mut self, piece: &[u8]) -> Result<usize, CallFailed> {
        match self {
            EitherStream::Output(stream) => stream.write_some(piece),
            EitherStream::Fault(stream) => stream.write_some(piece),
        }
    }
}
