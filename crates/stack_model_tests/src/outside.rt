//! Shelves and sinks in memory, with their faults, and the real ones over fakes and over the system.

ghost use Rattle.std.specs.Prelude.{◌<◌};

mod fakes;

use fakes::{FakeFiles, FakeStream};
use stack_outside::{
    MemoryShelf, MemorySink, RealShelf, RealSink, Shelf, ShelfError, Sink, Stream, standard_error,
    standard_output,
};
use std::alloc::Global;
use std::fs;
use std::test::*;

/// Whether a read gave these bytes, or why it failed.
fn gave(read: Result<Vec<u8>, ShelfError>, bytes: &[u8]) -> Result<bool, ShelfError> {
    match read {
        Ok(read) => Ok(read.as_slice() == bytes),
        Err(error) => Err(error),
    }
}

/// A shelf with two files of one name, whose second read fails.
fn plans(alloc: Global) -> Option<MemoryShelf> {
    let mut files = Vec::new(alloc);
    for text in ["abc", "later"] {
        let bytes = text.as_bytes().to_vec(alloc).ok()?;
        let name = String::from_str(alloc, "plan").ok()?;
        files.push((name, bytes)).ok()?;
    }
    let fails = [2].to_vec(alloc).ok()?;
    Some(MemoryShelf::new(files, fails))
}

/// What four reads give, how many of them failed, and whether all are recorded.
type Reads = ([Result<bool, ShelfError>; 4], u64, bool);

fn reads(shelf: &mut MemoryShelf) -> Reads {
    let found = [
        gave(shelf.read("plan", 3), b"abc"),
        gave(shelf.read("plan", 3), b"abc"),
        gave(shelf.read("plan", 2), b"abc"),
        gave(shelf.read("absent", 2), b""),
    ];
    let asked = shelf.asked();
    let is_recorded = asked.len() == 4 && asked[3].as_str() == "absent";
    (found, shelf.faults(), is_recorded)
}

fn reads_of_plans(alloc: Global) -> Option<Reads> {
    let mut shelf = plans(alloc)?;
    Some(reads(&mut shelf))
}

#[test]
fn a_shelf_in_memory_fails_at_listed_reads_and_absent_names(rt: HostRuntime) {
    let failed = Err(ShelfError::Failed);
    let found = [Ok(true), failed, Err(ShelfError::TooLong), failed];
    assert!(rt; reads_of_plans(rt.alloc()) == Some((found, 2, true)));
}

/// Whether two puts went well, and are what is written; the same of three more; how many failed, and how many there
/// were.
type Puts = ([bool; 2], bool, [bool; 3], bool, u64, u64);

fn puts(sink: &mut MemorySink) -> Puts {
    let two = [sink.put(b"ab").is_ok(), sink.put(b"cd").is_ok()];
    let front = sink.written() == b"abc".as_slice();
    let three = [
        sink.put(b"efg").is_ok(),
        sink.put(b"efg").is_ok(),
        sink.put(b"ef").is_ok(),
    ];
    let whole = sink.written() == b"abcef".as_slice();
    (two, front, three, whole, sink.faults(), sink.calls())
}

fn puts_of(alloc: Global) -> Option<Puts> {
    let fails = [(2, 1), (2, 2), (3, 9)].to_vec(alloc).ok()?;
    let mut sink = MemorySink::new(fails, 5).ok()?;
    Some(puts(&mut sink))
}

#[test]
fn a_sink_in_memory_fails_at_listed_calls_and_where_room_is_wanting(rt: HostRuntime) {
    let wanted = ([true, false], true, [false, false, true], true, 3, 5);
    assert!(rt; puts_of(rt.alloc()) == Some(wanted));
}

#[test]
fn the_real_shelf_reads_a_file(rt: HostRuntime) -> Result<(), Fail> {
    let name = "stack_outside_plan.txt";
    fs::write(&rt, name, b"abc")?;
    let mut shelf = RealShelf::new(&rt, rt.alloc());
    let found = [
        gave(shelf.read(name, 3), b"abc"),
        gave(shelf.read(name, 2), b""),
    ];
    fs::remove_file(&rt, name)?;
    let gone = gave(shelf.read(name, 3), b"");
    let wanted = [Ok(true), Err(ShelfError::TooLong)];
    assert!(rt; (found, gone) == (wanted, Err(ShelfError::Failed)));
    Ok(())
}

#[test]
fn the_real_sink_writes_both_streams(rt: HostRuntime) {
    let mut out = RealSink::new(&rt, Stream::Output);
    let mut err = RealSink::new(&rt, Stream::Fault);
    let mut output = standard_output(&rt);
    let mut fault = standard_error(&rt);
    let puts = [
        out.put(b"a line on standard output\n").is_ok(),
        err.put(b"a line on standard error\n").is_ok(),
        output.put(b"another on standard output\n").is_ok(),
        fault.put(b"another on standard error\n").is_ok(),
    ];
    assert!(rt; puts == [true; 4]);
}

/// Two reads of 14 bytes, of which at most 14 and at most 13 are allowed.
fn reads_over(alloc: Global, step: usize, fails: u64) -> [Result<bool, ShelfError>; 2]
    requires { 0 < step }
{
    let files = FakeFiles {
        bytes: b"block of stone",
        step,
        fails,
        taken: 0,
        failed: 0,
    };
    let mut shelf = RealShelf::over(files, alloc);
    [
        gave(shelf.read("plan", 14), b"block of stone"),
        gave(shelf.read("plan", 13), b"block of stone"),
    ]
}

/// Whether all is read at each step, and what is too long is refused.
fn reads_all(alloc: Global) -> bool {
    let wanted = [Ok(true), Err(ShelfError::TooLong)];
    for step in 1..16 {
        if reads_over(alloc, step, 0) != wanted {
            return false;
        }
    }
    true
}

/// Whether the first read fails at each call that does.
fn read_fails(alloc: Global) -> bool {
    for fails in 1..9 {
        if reads_over(alloc, 2, fails)[0] != Err(ShelfError::Failed) {
            return false;
        }
    }
    true
}

#[test]
fn a_shelf_over_files_that_give_little_reads_all_or_fails(rt: HostRuntime) {
    let alloc = rt.alloc();
    assert!(rt; [reads_all(alloc), read_fails(alloc)] == [true; 2]);
}

/// Whether a put of five bytes over such a stream goes well, whether what was taken is their front, and how long it is.
fn put_over(alloc: Global, step: usize, fails: u64) -> (bool, bool, usize) {
    let mut bytes = Vec::new(alloc);
    let stream = FakeStream {
        bytes: &mut bytes,
        step,
        calls: 0,
        fails,
        failed: 0,
    };
    let mut sink = RealSink::over(stream);
    let is_put = sink.put(b"stone").is_ok();
    (is_put, b"stone".starts_with(bytes.as_slice()), bytes.len())
}

/// The step of a stream, its call that fails, and how many of the five bytes it takes.
const STREAMS: &[(usize, u64, usize)] = &[
    (1, 0, 5),
    (2, 0, 5),
    (9, 0, 5),
    (2, 1, 0),
    (2, 3, 4),
    (0, 0, 0),
];

/// How many streams take so many, up to the first that doesn't.
fn taking(alloc: Global) -> usize {
    for (k, (step, fails, want)) in STREAMS.iter().enumerate() {
        if put_over(alloc, *step, *fails) != (*want == 5, true, *want) {
            return k;
        }
    }
    STREAMS.len()
}

#[test]
fn a_sink_over_streams_that_take_little_writes_all_or_a_front(rt: HostRuntime) {
    assert!(rt; taking(rt.alloc()) == 6);
}
