//! The upkeep of the numbers of a row.

ghost use Rattle.std.specs.Prelude.{◌≡◌, ℕ, ◌-◌, ◌<◌, ◌≤◌, ◌^◌, ℤ, pos, unsigned_abs, true, length, IfOk};
ghost use Rattle.stack_rows.specs.RowForm.{number_at, AreWithinTop};
ghost use Rattle.stack_rows.specs.EntriesSeen.{entries_of};

use crate::entries::Entries;
use crate::marks::{Marks, note_all, unmark_zero_words, unmark_zeros};
use crate::stepping::{top_of, top_of_words};
use crate::words::is_word;
use std::alloc::{AllocError, Global};

/// Puts words as numbers of 128 bits.
pub fn widen_all(numbers: &mut [i128], words: &[i64])
    requires { length words.now ≡ length numbers.old }
    ensures { numbers.new ≡ words.now }
{
    for j in 0..numbers.len() {
        numbers[j] = words[j] as i128;
    }
}

/// Puts numbers that are words as words.
pub fn narrow_all(words: &mut [i64], numbers: &[i128])
    requires width { length numbers.now ≡ length words.old }
    requires top { AreWithinTop numbers.now (2 ^ 63 - 1) }
    ensures { words.new ≡ numbers.now }
{
    for j in 0..words.len() {
        words[j] = numbers[j] as i64;
    }
}

impl Entries {
    /// As many zeros.
    pub(crate) fn zeros(alloc: Global, count: u16) -> Result<Entries, AllocError>
        requires { count < 2 ^ 16 - 1 }
        ensures long { IfOk result (λ e. length (entries_of e) ≡ count) }
        ensures zeros { IfOk result (λ e. (j : ℕ) → number_at (entries_of e) j ≡ pos 0) }
    {
        let numbers = Vec::from_elem(alloc, 0, usize::from(count))?;
        let words = Vec::from_elem(alloc, 0, usize::from(count))?;
        let marks = Marks::none(alloc, usize::from(count))?;
        Ok(Entries {
            numbers,
            words,
            wide: false,
            marks,
        })
    }

    /// How many there are.
    pub fn count(&self) -> usize
        ensures count { result ≡ length (entries_of self.now) }
        ensures few { result < 2 ^ 16 }
    {
        self.words.len()
    }

    /// One of them.
    pub fn at(&self, j: usize) -> i128
        requires { j < length (entries_of self.now) }
        ensures { result ≡ number_at (entries_of self.now) j }
    {
        if self.wide {
            self.numbers[j]
        } else {
            self.words[j] as i128
        }
    }

    /// Writes all of them as numbers of 128 bits.
    pub(crate) fn write(&self, numbers: &mut [i128])
        requires { length numbers.old ≡ length (entries_of self.now) }
        ensures { numbers.new ≡ entries_of self.now }
    {
        if self.wide {
            numbers.copy_from_slice(self.numbers.as_slice());
        } else {
            widen_all(numbers, self.words.as_slice());
        }
    }

    /// Keeps them as numbers of 128 bits.
    pub(crate) fn widen(&mut self)
        ensures entries { entries_of self.new ≡ entries_of self.old }
        ensures wide { self.new.wide ≡ true }
        ensures marks { self.new.marks.words.items ≡ self.old.marks.words.items }
    {
        if self.wide {
            return;
        }
        widen_all(self.numbers.as_mut_slice(), self.words.as_slice());
        self.wide = true;
    }

    /// Keeps them, which are words, as words.
    fn narrow(&mut self)
        requires { AreWithinTop (entries_of self.old) (2 ^ 63 - 1) }
        ensures { entries_of self.new ≡ entries_of self.old }
    {
        if self.wide {
            narrow_all(self.words.as_mut_slice(), self.numbers.as_slice());
            self.wide = false;
        }
    }

    /// Keeps them as words if this top of them is a word, and otherwise as numbers of 128 bits.
    pub(crate) fn settle(&mut self, top: u128)
        requires { AreWithinTop (entries_of self.old) top }
        ensures { entries_of self.new ≡ entries_of self.old }
    {
        if is_word(top) {
            self.narrow();
        } else {
            self.widen();
        }
    }

    /// Puts other numbers.
    pub(crate) fn put(&mut self, numbers: &[i128])
        requires { length numbers.now ≡ length (entries_of self.old) }
        ensures { entries_of self.new ≡ numbers.now }
    {
        self.numbers.as_mut_slice().copy_from_slice(numbers);
        self.wide = true;
        self.marks.clear();
        note_all(numbers, &mut self.marks);
    }

    /// Puts those of another row.
    pub(crate) fn copy_from(&mut self, other: &Entries)
        requires { length (entries_of other.now) ≡ length (entries_of self.old) }
        ensures { entries_of self.new ≡ entries_of other.now }
    {
        if other.wide {
            self.numbers
                .as_mut_slice()
                .copy_from_slice(other.numbers.as_slice());
        } else {
            self.words
                .as_mut_slice()
                .copy_from_slice(other.words.as_slice());
        }
        self.wide = other.wide;
        self.marks.copy_from(&other.marks);
    }

    /// Takes the marks away where there is nothing.
    pub(crate) fn find_marks(&mut self)
        ensures { entries_of self.new ≡ entries_of self.old }
    {
        if self.wide {
            unmark_zeros(self.numbers.as_slice(), &mut self.marks);
        } else {
            unmark_zero_words(self.words.as_slice(), &mut self.marks);
        }
    }

    /// A top of them.
    pub(crate) fn top(&self) -> u128
        ensures { AreWithinTop (entries_of self.now) result }
    {
        if self.wide {
            top_of(self.numbers.as_slice(), self.numbers.len())
        } else {
            top_of_words(self.words.as_slice(), self.words.len())
        }
    }
}
