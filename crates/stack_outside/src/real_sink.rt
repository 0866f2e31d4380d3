//! The sink over a stream that is written by single calls.

ghost use Rattle.std.specs.Prelude.{◌≡◌, ◌≤◌, None, IsOk, OnErr, is_err};
ghost use Rattle.stack_outside.specs.Faults.{Rose, count_after, StaysCounted, TellsFailure};
ghost use Rattle.stack_outside.specs.Sinks.{Puts};

use crate::error::SinkFailed;
use crate::raw::RawStream;
use crate::sink::Sink;
use crate::stream::EitherStream;
use crate::system::SystemStream;
use std::io::{Stderr, Stdout};

/// A stream that is written by single calls. It tells the bytes that its stream took where that does, and no calls.
#[derive(Drop)]
pub struct RealSink<
    S: RawStream + Drop = EitherStream<SystemStream<Stdout>, SystemStream<Stderr>>,
> {
    pub(crate) stream: S,
    faults: u64,
}

impl<S: RawStream + Drop> RealSink<S> {
    /// A sink over this stream, with no fault yet.
    pub fn over(stream: S) -> RealSink<S>
        ensures stream { result.stream ≡ stream }
        ensures faults { result.faults ≡ 0 }
    {
        RealSink { stream, faults: 0 }
    }
}

impl<S: RawStream + Drop> Sink for RealSink<S> {
    ghost written = { λ s. S.taken s.stream };

    ghost faults = { λ s. s.faults };

    ghost calls = { λ s. None };

    /// Writes on until the whole piece is written. A call that takes nothing is a fault too.
    fn put(&mut self, piece: &[u8]) -> Result<(), SinkFailed>
        ensures puts { Puts (S.taken self.old.stream) (S.taken self.new.stream) piece.now result }
        ensures later { self.old.faults ≤ self.new.faults }
        ensures bounded { StaysCounted self.old.faults self.new.faults }
        ensures cause { OnErr result (Rose self.old.faults self.new.faults) }
        ensures count { self.new.faults ≡ count_after (is_err result) self.old.faults }
        // No call that fails is passed over: at most one does, and the put then says so.
        ensures failed { TellsFailure (is_err result) (S.failed self.old.stream) (S.failed self.new.stream) }
        // The put fails only where a call does, or takes nothing of a piece that isn't empty.
        ensures sound { S.never_fails self.old.stream → IsOk result }
    {
        let mut done = 0;
        while done < piece.len() {
            match self.stream.write_some(&piece[done..]) {
                Ok(n) if n > 0 => done += n,
                _ => {
                    self.faults = self.faults.saturating_add(1);
                    return Err(SinkFailed);
                }
            }
        }
        Ok(())
    }
}
