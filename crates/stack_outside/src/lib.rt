//! What a program reads and writes: files by name, and streams, each with a count of its faults.
//!
//! A program over the traits `Shelf` and `Sink` is proved and tested over the devices in memory, and runs
//! over the real ones.
//!
//! ```text
//! let mut shelf = MemoryShelf::new(files, fails); // "plan" holds "abc"; no read is to fail
//! shelf.read("plan", 3) // Ok, with the bytes of "abc"
//! shelf.read("plan", 2) // Err(TooLong)
//! shelf.read("absent", 2) // Err(Failed), and `faults` counts one more
//! ```
#![tactic(auto)]

mod error;
mod memory_shelf;
mod memory_sink;
mod raw;
mod real_shelf;
mod real_sink;
mod shelf;
mod sink;
mod stream;
mod system;

pub use error::{CallFailed, ShelfError, SinkFailed};
pub use memory_shelf::MemoryShelf;
pub use memory_sink::MemorySink;
pub use raw::{RawFile, RawFiles, RawStream};
pub use real_shelf::RealShelf;
pub use real_sink::RealSink;
pub use shelf::Shelf;
pub use sink::Sink;
pub use stream::{EitherStream, Stream};
pub use system::{
    CountedSink, FaultSink, OutputSink, SystemFile, SystemFiles, SystemStream, standard_error,
    standard_output,
};
