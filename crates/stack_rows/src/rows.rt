//! The upkeep of a row.

ghost use Rattle.std.specs.Prelude.{◌≡◌, ℕ, ◌<◌, ℤ, pos, ◌<ℤ◌, length, IfOk};
ghost use Rattle.stack_rows.specs.RowForm.{number_at};
ghost use Rattle.stack_rows.specs.RowSeen.{numbers_of};

use crate::entries::Entries;
use crate::row::Row;
use crate::sums::CheckSums;
use std::alloc::{AllocError, Global};

/// How many steps the marks of a row are kept for at most.
const OLD: u8 = 32;

impl Row {
    /// Zeros over 1.
    pub fn zeros(alloc: Global, width: u16) -> Result<Row, AllocError>
        requires { 0 < width }
        ensures width { IfOk result (λ r. length (numbers_of r) ≡ width) }
        ensures zeros { IfOk result (λ r. (j : ℕ) → number_at (numbers_of r) j ≡ pos 0) }
        ensures under { IfOk result (λ r. r.under ≡ pos 1) }
    {
        let entries = Entries::zeros(alloc, width - 1)?;
        Ok(Row {
            entries,
            right: 0,
            under: 1,
            top: 0,
            sums: CheckSums::zero(),
            age: 0,
        })
    }

    /// How many numbers there are, with the right side.
    pub fn width(&self) -> usize
        ensures { result ≡ length (numbers_of self.now) }
    {
        self.entries.count() + 1
    }

    /// A number, the right side last.
    pub fn number(&self, j: usize) -> i128
        requires { j < length (numbers_of self.now) }
        ensures { result ≡ number_at (numbers_of self.now) j }
    {
        if j < self.entries.count() {
            self.entries.at(j)
        } else {
            self.right
        }
    }

    /// Puts other numbers, over another denominator.
    pub fn put(&mut self, numbers: &[i128], under: i128)
        requires width { length numbers.now ≡ length (numbers_of self.old) }
        requires under { pos 0 <ℤ under }
        ensures numbers { numbers_of self.new ≡ numbers.now }
        ensures under { self.new.under ≡ under }
    {
        let count = self.entries.count();
        self.entries.put(&numbers[..count]);
        self.top = self.entries.top();
        self.right = numbers[count];
        self.under = under;
        self.sums = CheckSums::of_entries(&self.entries);
        self.age = 0;
        self.settle();
    }

    /// Keeps the numbers as words if these suffice.
    pub(crate) fn settle(&mut self)
        ensures numbers { numbers_of self.new ≡ numbers_of self.old }
        ensures under { self.new.under ≡ self.old.under }
    {
        self.entries.settle(self.top);
    }

    /// Recomputes the top from the numbers.
    pub fn tighten(&mut self)
        ensures numbers { numbers_of self.new ≡ numbers_of self.old }
        ensures under { self.new.under ≡ self.old.under }
    {
        self.top = self.entries.top();
        self.settle();
    }

    /// Puts another row.
    pub fn copy_from(&mut self, other: &Row)
        requires { length (numbers_of other.now) ≡ length (numbers_of self.old) }
        ensures numbers { numbers_of self.new ≡ numbers_of other.now }
        ensures under { self.new.under ≡ other.now.under }
    {
        self.entries.copy_from(&other.entries);
        self.top = other.top;
        self.right = other.right;
        self.under = other.under;
        self.sums = other.sums;
        self.age = other.age;
    }

    /// Takes the marks away where there is nothing.
    pub(crate) fn find_marks(&mut self)
        ensures numbers { numbers_of self.new ≡ numbers_of self.old }
        ensures under { self.new.under ≡ self.old.under }
    {
        self.entries.find_marks();
        self.age = 0;
    }

    /// The same if the row was stepped often since they were found.
    pub(crate) fn grow_old(&mut self)
        ensures numbers { numbers_of self.new ≡ numbers_of self.old }
        ensures under { self.new.under ≡ self.old.under }
    {
        if self.age < OLD {
            self.age += 1;
        } else {
            self.find_marks();
        }
    }
}
