//! A sink in memory, whose listed calls fail.

ghost use Rattle.std.specs.Prelude.{◌≡◌, ◌≤◌, ◌-◌, ◌++◌, Some, IfOk, OnErr, is_err, [], length, take, vec_capacity};
ghost use Rattle.std.specs.Option.{option_map};
ghost use Rattle.stack_outside.specs.Faults.{Rose, counted, count_after, StaysCounted};
ghost use Rattle.stack_outside.specs.Held.{kept_of};
ghost use Rattle.stack_outside.specs.Sinks.{Puts};

use crate::error::SinkFailed;
use crate::sink::Sink;
use std::alloc::{AllocError, Global};

/// Bytes in memory. It tells them.
#[derive(Debug, Drop)]
pub struct MemorySink {
    bytes: Vec<u8>,
    room: usize,
    fails: Vec<(u64, usize)>,
    calls: u64,
    faults: u64,
    // The room was reserved.
    ghost reserved: { room ≤ vec_capacity bytes },
}

impl MemorySink {
    ghost use Rattle.stack_outside.specs.Memory.{sink_written, sink_faults, sink_room, sink_fails, sink_calls};

    /// Reserves `room` bytes. The call with the number of a pair in `fails`, counted from 1, fails and keeps as many
    /// bytes as the pair says, or the whole piece if that is shorter; where a number stands twice the first pair
    /// counts. A piece that doesn't fit the rest of the room fails and keeps nothing, also in a listed call.
    /// `AllocError` if memory ran out.
    pub fn new(fails: Vec<(u64, usize)>, room: usize) -> Result<MemorySink, AllocError>
        ensures written { IfOk result (λ s. sink_written s ≡ []) }
        ensures fails { IfOk result (λ s. sink_fails s ≡ fails.items) }
        ensures room { IfOk result (λ s. sink_room s ≡ room) }
        ensures calls { IfOk result (λ s. sink_calls s ≡ 0) }
        ensures faults { IfOk result (λ s. sink_faults s ≡ 0) }
    {
        let bytes = Vec::with_capacity(*fails.allocator(), room)?;
        Ok(MemorySink {
            bytes,
            room,
            fails,
            calls: 0,
            faults: 0,
        })
    }

    /// The bytes written so far.
    pub fn written(&self) -> &[u8]
        ensures { result.now ≡ sink_written self.now }
    {
        self.bytes.as_slice()
    }

    /// How often `put` was called, up to the greatest u64. Takes no memory.
    pub fn calls(&self) -> u64
        ensures { result ≡ sink_calls self.now }
    {
        self.calls
    }

    /// How often a call has failed, up to the greatest u64.
    pub fn faults(&self) -> u64
        ensures { result ≡ sink_faults self.now }
    {
        self.faults
    }
}

/// The count of the first pair with the number of the call.
fn kept(fails: &[(u64, usize)], call: u64) -> Option<usize>
    ensures { result ≡ kept_of fails.now call }
{
    for pair in fails {
        if pair.0 == call {
            return Some(pair.1);
        }
    }
    None
}

impl Sink for MemorySink {
    ghost use Rattle.stack_outside.specs.Memory.{sink_written, sink_faults, sink_room, sink_fails, sink_calls};
    ghost use Rattle.stack_outside.specs.Memory.{memory_put};

    ghost written = { λ s. Some s.bytes.items };

    ghost faults = { λ s. s.faults };

    ghost calls = { λ s. Some s.calls };

    fn put(&mut self, piece: &[u8]) -> Result<(), SinkFailed>
        ensures puts { Puts (Some (sink_written self.old)) (Some (sink_written self.new)) piece.now result }
        ensures later { sink_faults self.old ≤ sink_faults self.new }
        ensures bounded { StaysCounted (sink_faults self.old) (sink_faults self.new) }
        ensures cause { OnErr result (Rose (sink_faults self.old) (sink_faults self.new)) }
        // How many bytes it keeps, and whether it fails.
        ensures exact { let free = sink_room self.old - length (sink_written self.old) in
            let pair = kept_of (sink_fails self.old) (counted (sink_calls self.old)) in
            let kept = memory_put free pair (length piece.now) in
            (sink_written self.new ≡ sink_written self.old ++ take kept.0 piece.now) × (is_err result ≡ kept.1) }
        ensures count { sink_faults self.new ≡ count_after (is_err result) (sink_faults self.old) }
        ensures call { Some (sink_calls self.new) ≡ option_map counted (Some (sink_calls self.old)) }
        ensures fails { sink_fails self.new ≡ sink_fails self.old }
        ensures room { sink_room self.new ≡ sink_room self.old }
    {
        self.calls = self.calls.saturating_add(1);
        let free = self.room.saturating_sub(self.bytes.len());
        let (count, fails) = match kept(&self.fails, self.calls) {
            _ if piece.len() > free => (0, true),
            None => (piece.len(), false),
            Some(count) => (count.min(piece.len()), true),
        };
        if self.bytes.extend_from_slice(&piece[..count]).is_err() || fails {
            self.faults = self.faults.saturating_add(1);
            return Err(SinkFailed);
        }
        Ok(())
    }
}
