//! The shelf over files that are opened and read by single calls.

ghost use Rattle.std.specs.Prelude.{◌≡◌, ◌≢◌, ◌≤◌, ◌<◌, ◌+◌, ℕ, List, Err};
ghost use Rattle.stack_outside.specs.Faults.{Rose, count_after, failed_after, StaysCounted};
ghost use Rattle.stack_outside.specs.Shelves.{ReadGives, Asks, Records, TakesAtMost, has_failed};

use crate::error::ShelfError;
use crate::raw::RawFiles;
use crate::shelf::{Shelf, faults_after};
use std::alloc::Global;

/// The files that `F` opens. It tells the bytes of a name, and the names of its reads, where `F` does.
#[derive(Drop)]
pub struct RealShelf<F: RawFiles + Drop> {
    files: F,
    alloc: Global,
    faults: u64,
}

/// A file is read in pieces of at most this many bytes.
const BLOCK: usize = 4096;

impl<F: RawFiles + Drop> RealShelf<F> {
    /// A shelf with no fault yet, whose reads take their memory from `alloc`.
    pub fn over(files: F, alloc: Global) -> RealShelf<F>
        ensures files { result.files ≡ files }
        ensures faults { result.faults ≡ 0 }
    {
        RealShelf {
            files,
            alloc,
            faults: 0,
        }
    }
}

/// How many bytes to read after so many: at most a block, and up to `most + 1` together.
fn room_after(read: usize, most: usize) -> usize
    requires { (read ≤ most) × (most < usize.MAX) }
    ensures { (0 < result) × (result ≤ 4096) × (read + result ≤ most + 1) }
{
    (most + 1 - read).min(BLOCK)
}

/// Reads an open file to its end, or to `most + 1` bytes.
fn read_on<F: RawFiles + Drop>(
    files: &mut F,
    file: &mut F::File,
    alloc: Global,
    most: usize,
) -> Result<Vec<u8>, ShelfError>
    requires { most < usize.MAX }
    ensures gives { ReadGives (F.File.left file.old) most result }
    ensures holds { F.holds files.new ≡ F.holds files.old }
    ensures asked { F.asked files.new ≡ F.asked files.old }
    ensures taken { TakesAtMost (most + 1) (F.taken files.old) (F.taken files.new) }
    ensures failed { F.failed files.new ≡ failed_after (has_failed result) (F.failed files.old) }
    ensures sound { F.File.never_fails file.old → result ≢ Err ShelfError.Failed }
    ensures lasts { (other : List ℕ) → F.never_fails files.old other → F.never_fails files.new other }
{
    let mut bytes = Vec::new(alloc);
    let mut block = [0u8; BLOCK];
    while bytes.len() <= most {
        let room = room_after(bytes.len(), most);
        match files.read_some(file, &mut block[..room]) {
            Ok(0) => return Ok(bytes),
            Ok(n) => bytes.extend_from_slice(&block[..n])?,
            Err(_) => return Err(ShelfError::Failed),
        }
    }
    Err(ShelfError::TooLong)
}

/// Opens one file, the one with the name, and reads it to its end, or to `most + 1` bytes.
fn take<F: RawFiles + Drop>(
    files: &mut F,
    alloc: Global,
    name: &str,
    most: usize,
) -> Result<Vec<u8>, ShelfError>
    requires { most < usize.MAX }
    ensures gives { ReadGives (F.holds files.old name.now) most result }
    ensures holds { F.holds files.new ≡ F.holds files.old }
    ensures opens { Asks (F.asked files.old) (F.asked files.new) name.now }
    ensures taken { TakesAtMost (most + 1) (F.taken files.old) (F.taken files.new) }
    ensures failed { F.failed files.new ≡ failed_after (has_failed result) (F.failed files.old) }
    ensures sound { F.never_fails files.old name.now → result ≢ Err ShelfError.Failed }
    ensures lasts { (other : List ℕ) → F.never_fails files.old other → F.never_fails files.new other }
{
    let Ok(mut file) = files.open(name) else {
        return Err(ShelfError::Failed);
    };
    read_on(files, &mut file, alloc, most)
}

impl<F: RawFiles + Drop> Shelf for RealShelf<F> {
    ghost holds = { λ s. F.holds s.files };

    ghost asked = { λ s. F.asked s.files };

    ghost faults = { λ s. s.faults };

    /// Opens one file, the one with the name, and ends at its end or after `most + 1` bytes. Each call that fails is a
    /// fault, an interrupted one too.
    fn read(&mut self, name: &str, most: usize) -> Result<Vec<u8>, ShelfError>
        requires { most < usize.MAX }
        ensures gives { ReadGives (F.holds self.old.files name.now) most result }
        ensures holds { F.holds self.new.files ≡ F.holds self.old.files }
        ensures asked { Records (F.asked self.old.files) (F.asked self.new.files) name.now result }
        ensures later { self.old.faults ≤ self.new.faults }
        ensures bounded { StaysCounted self.old.faults self.new.faults }
        ensures cause { result ≡ Err ShelfError.Failed → Rose self.old.faults self.new.faults }
        ensures count { self.new.faults ≡ count_after (has_failed result) self.old.faults }
        // Exactly one file is asked for,
        ensures opens { Asks (F.asked self.old.files) (F.asked self.new.files) name.now }
        // and nothing is read past the byte that shows that it is too long.
        ensures taken { TakesAtMost (most + 1) (F.taken self.old.files) (F.taken self.new.files) }
        // A call that fails is told as failed, and nothing else is: at most one call fails, and the read then says so.
        ensures failed { let failed = failed_after (has_failed result) (F.failed self.old.files) in
            F.failed self.new.files ≡ failed }
        // The read fails only where a call does.
        ensures sound { F.never_fails self.old.files name.now → result ≢ Err ShelfError.Failed }
        ensures lasts { (other : List ℕ) → F.never_fails self.old.files other → F.never_fails self.new.files other }
    {
        let read = take(&mut self.files, self.alloc, name, most);
        self.faults = faults_after(self.faults, &read);
        read
    }
}
