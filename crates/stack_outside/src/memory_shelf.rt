//! A shelf in memory, whose listed reads fail.

ghost use Rattle.std.specs.Prelude.{◌≡◌, ◌≢◌, ◌≤◌, ◌==◌, ◌++◌, ◌∷◌, Some, Ok, Err, []};
ghost use Rattle.std.specs.Option.{option_map};
ghost use Rattle.std.specs.List.{list_any};
ghost use Rattle.stack_outside.specs.Faults.{Rose, counted, count_after, StaysCounted};
ghost use Rattle.stack_outside.specs.Held.{held_of, names_of};
ghost use Rattle.stack_outside.specs.Memory.{memory_read, Answers};
ghost use Rattle.stack_outside.specs.Shelves.{ReadGives, Records, has_failed};

use crate::error::ShelfError;
use crate::shelf::{Shelf, faults_after};
use std::alloc::Global;

/// Files in memory. It tells their bytes and the names of its reads.
#[derive(Debug, Drop)]
pub struct MemoryShelf {
    files: Vec<(String, Vec<u8>)>,
    fails: Vec<u64>,
    calls: u64,
    faults: u64,
    asked: Vec<String>,
}

impl MemoryShelf {
    ghost use Rattle.stack_outside.specs.Memory.{shelf_holds, shelf_asked, shelf_faults, shelf_calls, shelf_fails};

    /// Holds these files, by name; where a name stands twice the first counts. The reads with the numbers in
    /// `fails`, counted from 1, fail. Takes no memory.
    pub fn new(files: Vec<(String, Vec<u8>)>, fails: Vec<u64>) -> MemoryShelf
        ensures holds { shelf_holds result ≡ held_of files.items }
        ensures fails { shelf_fails result ≡ fails.items }
        ensures asked { shelf_asked result ≡ [] }
        ensures calls { shelf_calls result ≡ 0 }
        ensures faults { shelf_faults result ≡ 0 }
    {
        let asked = Vec::new(*files.allocator());
        MemoryShelf {
            files,
            fails,
            calls: 0,
            faults: 0,
            asked,
        }
    }

    /// How often a read has failed, up to the greatest u64.
    pub fn faults(&self) -> u64
        ensures { result ≡ shelf_faults self.now }
    {
        self.faults
    }

    /// The names of all reads so far, in order.
    pub fn asked(&self) -> &[String]
        ensures { names_of result.now ≡ shelf_asked self.now }
    {
        self.asked.as_slice()
    }
}

/// The bytes of the first file with the name.
fn find<'a>(files: &'a [(String, Vec<u8>)], name: &str) -> Option<&'a [u8]>
    ensures { option_map (λ x. x.now) result ≡ held_of files.now name.now }
{
    for file in files {
        if file.0.as_str() == name {
            return Some(file.1.as_slice());
        }
    }
    None
}

/// Notes the name of a read.
fn note(asked: &mut Vec<String>, name: &str) -> Result<(), ShelfError>
    ensures done { result ≡ Ok tt → names_of asked.new.items ≡ names_of asked.old.items ++ name.now ∷ [] }
    ensures error { result ≢ Ok tt → result ≡ Err ShelfError.Memory }
    ensures kept { result ≢ Ok tt → names_of asked.new.items ≡ names_of asked.old.items }
{
    let alloc = *asked.allocator();
    let copy = String::from_str(alloc, name)?;
    asked.push(copy)?;
    Ok(())
}

/// What a read gives in a call that is listed to fail or not.
fn answer(
    files: &[(String, Vec<u8>)],
    alloc: Global,
    name: &str,
    is_listed: bool,
    most: usize,
) -> Result<Vec<u8>, ShelfError>
    ensures gives { ReadGives (held_of files.now name.now) most result }
    ensures exact { Answers result (memory_read (held_of files.now name.now) is_listed most) }
{
    if is_listed {
        return Err(ShelfError::Failed);
    }
    let Some(bytes) = find(files, name) else {
        return Err(ShelfError::Failed);
    };
    if bytes.len() > most {
        return Err(ShelfError::TooLong);
    }
    Ok(Vec::from_slice(alloc, bytes)?)
}

impl Shelf for MemoryShelf {
    ghost use Rattle.stack_outside.specs.Memory.{shelf_holds, shelf_asked, shelf_faults, shelf_calls, shelf_fails};

    ghost holds = { λ s. held_of s.files.items };

    ghost asked = { λ s. Some (names_of s.asked.items) };

    ghost faults = { λ s. s.faults };

    /// Copies the name first, so that it can be told; then fails where the call is listed or nothing has the
    /// name, else looks at the length.
    fn read(&mut self, name: &str, most: usize) -> Result<Vec<u8>, ShelfError>
        ensures gives { ReadGives (shelf_holds self.old name.now) most result }
        ensures holds { shelf_holds self.new ≡ shelf_holds self.old }
        ensures asked { Records (Some (shelf_asked self.old)) (Some (shelf_asked self.new)) name.now result }
        ensures later { shelf_faults self.old ≤ shelf_faults self.new }
        ensures bounded { StaysCounted (shelf_faults self.old) (shelf_faults self.new) }
        ensures cause { result ≡ Err ShelfError.Failed → Rose (shelf_faults self.old) (shelf_faults self.new) }
        // Which answer it is, unless memory ran out.
        ensures exact { let listed = list_any (λ call. call == counted (shelf_calls self.old)) (shelf_fails self.old) in
            Answers result (memory_read (shelf_holds self.old name.now) listed most) }
        ensures count { shelf_faults self.new ≡ count_after (has_failed result) (shelf_faults self.old) }
        ensures call { shelf_calls self.new ≡ counted (shelf_calls self.old) }
        ensures fails { shelf_fails self.new ≡ shelf_fails self.old }
    {
        self.calls = self.calls.saturating_add(1);
        let alloc = *self.asked.allocator();
        let is_listed = self.fails.contains(&self.calls);
        let read = match note(&mut self.asked, name) {
            Ok(()) => answer(&self.files, alloc, name, is_listed, most),
            Err(error) => Err(error),
        };
        self.faults = faults_after(self.faults, &read);
        read
    }
}
