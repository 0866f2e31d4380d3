//! Files and streams for tests, which tell their bytes: calls that give little, and one that fails.

ghost use Rattle.std.specs.Prelude.{◌≡◌, ◌<◌, Some, None};

use stack_outside::{CallFailed, RawFile, RawFiles, RawStream};

/// Each name holds these bytes. A read gives at most `step` of them, and the one with the number `fails`, counted from
/// 1, fails, as one that a signal interrupts. `taken` counts the bytes that were read, and
/// `failed` the reads that failed.
#[derive(Clone, Copy, Drop)]
pub struct FakeFiles {
    pub bytes: &'static [u8],
    pub step: usize,
    pub fails: u64,
    pub taken: usize,
    pub failed: u64,
    ghost gives: { 0 < step },
}

/// Such a file, with the bytes that are left.
#[derive(Drop)]
pub struct FakeFile {
    left: &'static [u8],
    step: usize,
    calls: u64,
    fails: u64,
    ghost gives: { 0 < step },
}

impl RawFiles for FakeFiles {
    type File = FakeFile;

    ghost holds = { λ s name. Some s.bytes.now };

    ghost asked = { λ s. None };

    ghost taken = { λ s. Some s.taken };

    ghost failed = { λ s. Some s.failed };

    ghost never_fails = { λ s name. s.fails ≡ 0 };

    fn open(&mut self, _name: &str) -> Result<FakeFile, CallFailed> {
        Ok(FakeFile {
            left: self.bytes,
            step: self.step,
            calls: 0,
            fails: self.fails,
        })
    }

    fn read_some(&mut self, file: &mut FakeFile, room: &mut [u8]) -> Result<usize, CallFailed> {
        file.calls = file.calls.saturating_add(1);
        if file.calls == file.fails {
            self.failed = self.failed.saturating_add(1);
            return Err(CallFailed);
        }
        let n = file.left.len().min(room.len()).min(file.step);
        room[..n].copy_from_slice(&file.left[..n]);
        file.left = &file.left[n..];
        self.taken = self.taken.saturating_add(n);
        Ok(n)
    }
}

impl RawFile for FakeFile {
    ghost left = { λ s. Some s.left.now };

    ghost never_fails = { λ s. s.fails ≡ 0 };
}

/// It writes into a list of bytes. A write takes at most `step` of them, and the one with the number `fails`, counted
/// from 1, fails. `failed` counts the writes that failed.
#[derive(Drop)]
pub struct FakeStream<'a> {
    pub bytes: &'a mut Vec<u8>,
    pub step: usize,
    pub calls: u64,
    pub fails: u64,
    pub failed: u64,
}

impl RawStream for FakeStream<'_> {
    ghost taken = { λ s. Some s.bytes.now.items };

    ghost failed = { λ s. Some s.failed };

    ghost never_fails = { λ s. ⊥ };

    fn write_some(&mut self, piece: &[u8]) -> Result<usize, CallFailed> {
        self.calls = self.calls.saturating_add(1);
        let n = piece.len().min(self.step);
        if self.calls == self.fails || self.bytes.extend_from_slice(&piece[..n]).is_err() {
            self.failed = self.failed.saturating_add(1);
            return Err(CallFailed);
        }
        Ok(n)
    }
}
