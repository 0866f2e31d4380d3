//! The calls of the system. Trusted are the six functions of it that have a handle of files or of the whole system,
//! that they make no further call with it: `open`, `read_some`, `RealShelf::new`, `RealSink::new`, `standard_output`
//! and `standard_error`. And of `fs::open`, in `open`, it is trusted that it opens the file asked for, since the kit
//! doesn't say what a name holds. Of reads and writes it is proved, over any reader and any writer of the kit that
//! tells its bytes, that what they give is what the call gave, or that it failed. That they call at all is tested.
//! Which stream is which is a matter of types, as each handle writes to its own. Of real files and streams the kit
//! tells no bytes, and so the real devices tell none.

ghost use Rattle.std.specs.Prelude.{◌≡◌, None, Some};

use crate::error::{CallFailed, SinkFailed};
use crate::raw::{RawFile, RawFiles, RawStream};
use crate::real_shelf::RealShelf;
use crate::real_sink::RealSink;
use crate::sink::Sink;
use crate::stream::{EitherStream, Stream};
use std::alloc::Global;
use std::fs;
use std::io::{Error, Read, Stderr, Stdout, Write};
use std::rt::Files;

/// The files of the system, by their paths.
#[derive(Drop)]
pub struct SystemFiles<'a, R: Files> {
    rt: &'a R,
}

/// A file that is open for reading. It tells what its reader does.
#[derive(Drop)]
pub struct SystemFile<F: Read + Drop> {
    reader: F,
}

/// A stream. It tells what its writer does.
#[derive(Drop)]
pub struct SystemStream<W: Write + Drop> {
    writer: W,
}

impl From<Error> for CallFailed {
    fn from(_e: Error) -> CallFailed {
        CallFailed
    }
}

impl<'a, R: Files> RawFiles for SystemFiles<'a, R> {
    type File = SystemFile<R::File>;

    ghost holds = { λ s name. None };

    // It keeps no list of names, and no count of bytes. What its caller asks for and reads is proved over any files, so
    // over those that tell it.
    ghost asked = { λ s. None };

    ghost taken = { λ s. None };

    ghost failed = { λ s. None };

    // Of no file is it known that no call fails.
    ghost never_fails = { λ s name. ⊥ };

    fn open(&mut self, name: &str) -> Result<SystemFile<R::File>, CallFailed> {
        Ok(SystemFile {
            reader: fs::open(self.rt, name)?,
        })
    }

    fn read_some(
        &mut self,
        file: &mut SystemFile<R::File>,
        room: &mut [u8],
    ) -> Result<usize, CallFailed> {
        Ok(file.reader.read(room)?)
    }
}

impl<F: Read + Drop> RawFile for SystemFile<F> {
    ghost left = { λ s. F.remaining s.reader };

    ghost never_fails = { λ s. ⊥ };
}

impl<W: Write + Drop> RawStream for SystemStream<W> {
    ghost taken = { λ s. W.contents s.writer };

    ghost failed = { λ s. None };

    ghost never_fails = { λ s. ⊥ };

    fn write_some(&mut self, piece: &[u8]) -> Result<usize, CallFailed> {
        Ok(self.writer.write(piece)?)
    }
}

impl<'a, R: Files> RealShelf<SystemFiles<'a, R>> {
    /// The files of the system, with no fault yet; reads take their memory from `alloc`.
    pub fn new(rt: &'a R, alloc: Global) -> RealShelf<SystemFiles<'a, R>>
        ensures { result.faults ≡ 0 }
    {
        RealShelf::over(SystemFiles { rt }, alloc)
    }
}

impl RealSink {
    ghost use Rattle.stack_outside.specs.Streams.{stream_of};

    /// The standard stream, with no fault yet.
    pub fn new(rt: &HostRuntime, stream: Stream) -> RealSink
        ensures stream { stream_of result.stream ≡ stream }
        ensures faults { result.faults ≡ 0 }
    {
        let standard = match stream {
            Stream::Output => EitherStream::Output(SystemStream {
                writer: rt.stdout(),
            }),
            Stream::Fault => EitherStream::Fault(SystemStream {
                writer: rt.stderr(),
            }),
        };
        RealSink::over(standard)
    }
}

/// A sink that counts its calls.
#[derive(Drop)]
pub struct CountedSink<S: Sink + Drop> {
    sink: S,
    calls: u64,
}

impl<S: Sink + Drop> Sink for CountedSink<S> {
    ghost written = { λ s. S.written s.sink };

    ghost faults = { λ s. S.faults s.sink };

    ghost calls = { λ s. Some s.calls };

    fn put(&mut self, piece: &[u8]) -> Result<(), SinkFailed> {
        self.calls = self.calls.saturating_add(1);
        self.sink.put(piece)
    }
}

/// A sink over standard output. It is of another type than one over standard error, so that no call takes one for the
/// other.
pub type OutputSink = CountedSink<RealSink<SystemStream<Stdout>>>;

/// A sink over standard error.
pub type FaultSink = CountedSink<RealSink<SystemStream<Stderr>>>;

/// Standard output, with no fault yet.
pub fn standard_output(rt: &HostRuntime) -> OutputSink
    ensures faults { result.sink.faults ≡ 0 }
    ensures calls { result.calls ≡ 0 }
{
    CountedSink {
        sink: RealSink::over(SystemStream {
            writer: rt.stdout(),
        }),
        calls: 0,
    }
}

/// Standard error, with no fault yet.
pub fn standard_error(rt: &HostRuntime) -> FaultSink
    ensures faults { result.sink.faults ≡ 0 }
    ensures calls { result.calls ≡ 0 }
{
    CountedSink {
        sink: RealSink::over(SystemStream {
            writer: rt.stderr(),
        }),
        calls: 0,
    }
}
