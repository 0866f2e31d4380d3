//! Files by name.

ghost use Rattle.std.specs.Prelude.{◌≡◌, ◌<◌, ◌≤◌, ℕ, List};
ghost use Rattle.std.specs.declared.option.Option.{Option};
ghost use Rattle.stack_outside.specs.Faults.{Rose, count_after, StaysCounted};
ghost use Rattle.stack_outside.specs.Shelves.{ReadGives, Records, has_failed};

use crate::error::ShelfError;

/// A device that holds files by name.
pub trait Shelf {
    /// The bytes that a name holds. A device may not tell them, and nothing is told of a name that isn't there.
    ghost holds: { Self → List ℕ → Option (List ℕ) };
    /// The names of all reads so far, in order. A device may not tell them.
    ghost asked: { Self → Option (List (List ℕ)) };
    /// How often a read has failed, up to the greatest u64, where the count stays.
    ghost faults: { Self → ℕ };

    /// All that the name holds, at most `most` bytes. `Failed` where the device fails or nothing has the name, with its
    /// count risen; `TooLong` where the name holds more bytes; `Memory` if memory ran out.
    fn read(&mut self, name: &str, most: usize) -> Result<Vec<u8>, ShelfError>
        requires { most < usize.MAX }
        ensures gives { ReadGives (holds self.old name.now) most result }
        ensures holds { holds self.new ≡ holds self.old }
        ensures asked { Records (asked self.old) (asked self.new) name.now result }
        ensures later { faults self.old ≤ faults self.new }
        ensures bounded { StaysCounted (faults self.old) (faults self.new) }
        ensures cause { result ≡ Err ShelfError.Failed → Rose (faults self.old) (faults self.new) }
        // The count goes up by one exactly if the read fails.
        ensures count { faults self.new ≡ count_after (has_failed result) (faults self.old) };
}

/// The count of faults after a read: one more where it failed, up to the greatest u64.
pub fn faults_after(faults: u64, read: &Result<Vec<u8>, ShelfError>) -> u64
    ensures { result ≡ count_after (has_failed read.now) faults }
{
    match read {
        Err(ShelfError::Failed) => faults.saturating_add(1),
        _ => faults,
    }
}
