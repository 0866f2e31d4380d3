//! Single calls of a system: opening a file, one read, one write. What loops over them is proved.

ghost use Rattle.std.specs.Prelude.{◌≡◌, ◌<◌, ℕ, List, IfOk, IsOk, IsOkAnd, is_err, length};
ghost use Rattle.std.specs.Io.{ReadsAtMost, WritesAtMost};
ghost use Rattle.std.specs.Io.KnownBytes.{Keeps, ReadConsumes, WriteAppends};
ghost use Rattle.std.specs.declared.option.Option.{Option};
ghost use Rattle.stack_outside.specs.Faults.{failed_after};
ghost use Rattle.stack_outside.specs.Shelves.{Asks, TakesAtMost, read_count};

use crate::error::CallFailed;

/// What a file that was opened tells. It is closed where it is dropped.
pub trait RawFile {
    /// The bytes that are still to be read. A file may not tell them.
    ghost left: { Self → Option (List ℕ) };
    /// No read of it fails from here on.
    ghost never_fails: { Self → Type 0 };
}

/// What opens files by name and reads them. Nothing here makes, changes or removes a file.
pub trait RawFiles {
    /// A file that was opened.
    type File: RawFile + Drop;

    /// The bytes that a name holds. It may not tell them.
    ghost holds: { Self → List ℕ → Option (List ℕ) };
    /// The names of all files that were to be opened so far, in order. It may not tell them.
    ghost asked: { Self → Option (List (List ℕ)) };
    /// How many bytes were read so far, of all files together. It may not tell it.
    ghost taken: { Self → Option ℕ };
    /// How many calls have failed so far, those that open and those that read, up to the greatest u64, where the count
    /// stays. It may not tell it.
    ghost failed: { Self → Option ℕ };
    /// No call on the file with this name fails.
    ghost never_fails: { Self → List ℕ → Type 0 };

    /// Opens the file with this name, to be read from its first byte.
    fn open(&mut self, name: &str) -> Result<Self::File, CallFailed>
        ensures gives { IfOk result (λ file. Keeps (holds self.old name.now) (Self.File.left file)) }
        ensures holds { holds self.new ≡ holds self.old }
        ensures asked { Asks (asked self.old) (asked self.new) name.now }
        ensures taken { TakesAtMost 0 (taken self.old) (taken self.new) }
        ensures failed { failed self.new ≡ failed_after (is_err result) (failed self.old) }
        ensures opens { never_fails self.old name.now → IsOk result }
        ensures sound { never_fails self.old name.now → IfOk result (λ file. Self.File.never_fails file) }
        ensures lasts { (other : List ℕ) → never_fails self.old other → never_fails self.new other };

    /// Reads the file's next bytes to the front of `room`, and says how many: none only at the end, or without room.
    fn read_some(&mut self, file: &mut Self::File, room: &mut [u8]) -> Result<usize, CallFailed>
        ensures within { ReadsAtMost result room.new }
        ensures gives { ReadConsumes (Self.File.left file.old) (Self.File.left file.new) result room.new }
        ensures holds { holds self.new ≡ holds self.old }
        ensures asked { asked self.new ≡ asked self.old }
        ensures taken { TakesAtMost (read_count result) (taken self.old) (taken self.new) }
        ensures failed { failed self.new ≡ failed_after (is_err result) (failed self.old) }
        ensures sound { Self.File.never_fails file.old → IsOk result × Self.File.never_fails file.new }
        ensures lasts { (other : List ℕ) → never_fails self.old other → never_fails self.new other };
}

/// A stream that takes bytes.
pub trait RawStream {
    /// The bytes that it has taken. A stream may not tell them.
    ghost taken: { Self → Option (List ℕ) };
    /// How many writes have failed so far, up to the greatest u64, where the count stays. A stream may not tell it.
    ghost failed: { Self → Option ℕ };
    /// From here on no write to it fails, and each takes something of a piece that isn't empty.
    ghost never_fails: { Self → Type 0 };

    /// Takes a front of the piece, and says how long it is. A call that fails takes nothing.
    fn write_some(&mut self, piece: &[u8]) -> Result<usize, CallFailed>
        ensures within { WritesAtMost result piece.now }
        ensures takes { WriteAppends (taken self.old) (taken self.new) result piece.now }
        ensures failed { failed self.new ≡ failed_after (is_err result) (failed self.old) }
        ensures sound { never_fails self.old → never_fails self.new }
        ensures some { never_fails self.old → 0 < length piece.now → IsOkAnd result (λ n. 0 < n) };
}
