//! Where text goes.

ghost use Rattle.std.specs.Prelude.{◌≡◌, ◌≤◌, ℕ, List, OnErr, is_err};
ghost use Rattle.std.specs.Option.{option_map};
ghost use Rattle.std.specs.declared.option.Option.{Option};
ghost use Rattle.stack_outside.specs.Faults.{Rose, counted, count_after, StaysCounted};
ghost use Rattle.stack_outside.specs.Sinks.{Puts};

use crate::error::SinkFailed;

/// A device that takes text.
pub trait Sink {
    /// The bytes written so far. A device may not tell them.
    ghost written: { Self → Option (List ℕ) };
    /// How often a put has failed, up to the greatest u64, where the count stays.
    ghost faults: { Self → ℕ };
    /// How often `put` was called, up to the greatest u64, where the count stays. A device may not tell it.
    ghost calls: { Self → Option ℕ };

    /// Writes the whole piece. Where the device fails, with its count risen, a front of the piece is
    /// written. Takes no memory.
    fn put(&mut self, piece: &[u8]) -> Result<(), SinkFailed>
        ensures puts { Puts (written self.old) (written self.new) piece.now result }
        ensures call { calls self.new ≡ option_map counted (calls self.old) }
        ensures later { faults self.old ≤ faults self.new }
        ensures bounded { StaysCounted (faults self.old) (faults self.new) }
        ensures cause { OnErr result (Rose (faults self.old) (faults self.new)) }
        // The count goes up by one exactly if the put fails.
        ensures count { faults self.new ≡ count_after (is_err result) (faults self.old) };
}
