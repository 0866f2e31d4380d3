//! Marks of places, a bit each.

ghost use Rattle.std.specs.Prelude.{◌≡◌, ◌≢◌, ℕ, suc, ◌<◌, ◌≤◌, ◌/◌, length, IfOk};
ghost use Rattle.stack_rows.specs.Marks.{mark_in};
ghost use Rattle.stack_rows.specs.RowForm.{AreMarked};

use std::alloc::{AllocError, Global};

/// Marks of places, a bit each.
#[derive(Drop)]
pub struct Marks {
    pub words: Vec<u64>,
}

impl Marks {
    ghost use Rattle.std.specs.Prelude.{pos, max};

    /// No marks yet, with room for as many.
    pub fn none(alloc: Global, width: usize) -> Result<Marks, AllocError>
        ensures long { IfOk result (λ m. length m.words.items ≡ suc (width / 64)) }
        ensures nothing { IfOk result (λ m. (j : ℕ) → mark_in m.words.items j ≡ 0) }
    {
        let words = Vec::from_elem(alloc, 0, width / 64 + 1)?;
        Ok(Marks { words })
    }

    /// Marks a place.
    pub fn put(&mut self, j: usize)
        requires { j / 64 < length self.old.words.items }
        ensures long { length self.new.words.items ≡ length self.old.words.items }
        ensures here { mark_in self.new.words.items j ≡ 1 }
        ensures others { (i : ℕ) → i ≢ j → mark_in self.new.words.items i ≡ mark_in self.old.words.items i }
    {
        self.words[j / 64] = self.words[j / 64] | (1u64 << (j % 64));
    }

    /// Clears the mark of a place.
    pub fn remove(&mut self, j: usize)
        requires { j / 64 < length self.old.words.items }
        ensures long { length self.new.words.items ≡ length self.old.words.items }
        ensures here { mark_in self.new.words.items j ≡ 0 }
        ensures others { (i : ℕ) → i ≢ j → mark_in self.new.words.items i ≡ mark_in self.old.words.items i }
    {
        self.words[j / 64] = self.words[j / 64] & !(1u64 << (j % 64));
    }

    /// Clears all marks.
    pub fn clear(&mut self)
        ensures long { length self.new.words.items ≡ length self.old.words.items }
        ensures nothing { (j : ℕ) → mark_in self.new.words.items j ≡ 0 }
    {
        for w in 0..self.words.len() {
            self.words[w] = 0;
        }
    }

    /// Marks all places.
    pub fn fill(&mut self)
        ensures long { length self.new.words.items ≡ length self.old.words.items }
        ensures each { (j : ℕ) → j / 64 < length self.old.words.items → mark_in self.new.words.items j ≡ 1 }
    {
        for w in 0..self.words.len() {
            self.words[w] = u64::MAX;
        }
    }

    /// Puts the marks of another one in place of its own.
    pub fn copy_from(&mut self, other: &Marks)
        requires { length other.now.words.items ≡ length self.old.words.items }
        ensures { self.new.words.items ≡ other.now.words.items }
    {
        self.words
            .as_mut_slice()
            .copy_from_slice(other.words.as_slice());
    }

    /// Adds all marks of `other`.
    pub fn join(&mut self, other: &Marks)
        requires { length other.now.words.items ≡ length self.old.words.items }
        ensures long { length self.new.words.items ≡ length self.old.words.items }
        ensures joined { (j : ℕ) → mark_in self.new.words.items j
            ≡ max (mark_in self.old.words.items j) (mark_in other.now.words.items j) }
    {
        let others = other.words.as_slice();
        let own = self.words.as_mut_slice();
        for w in 0..own.len() {
            own[w] = own[w] | others[w];
        }
    }

    /// Marks a place exactly if a number isn't 0.
    pub fn note(&mut self, j: usize, number: i128)
        requires { j / 64 < length self.old.words.items }
        ensures long { length self.new.words.items ≡ length self.old.words.items }
        ensures here { mark_in self.new.words.items j ≡ 0 → number ≡ pos 0 }
        ensures others { (i : ℕ) → i ≢ j → mark_in self.new.words.items i ≡ mark_in self.old.words.items i }
    {
        if number == 0 {
            self.remove(j);
        } else {
            self.put(j);
        }
    }

    /// The next place with a mark from one on; the end if there is none.
    pub fn next(&self, from: usize, end: usize) -> usize
        requires long { length self.now.words.items ≡ suc (end / 64) }
        requires within { from ≤ end }
        ensures later { from ≤ result }
        ensures within { result ≤ end }
        ensures none { (j : ℕ) → from ≤ j → j < result → mark_in self.now.words.items j ≡ 0 }
    {
        let words = self.words.as_slice();
        let rest = words[from / 64] >> (from % 64);
        if rest != 0 {
            return from + (rest.trailing_zeros() as usize).min(end - from);
        }
        for w in from / 64 + 1..words.len() {
            let word = words[w];
            if word != 0 {
                return w * 64 + (word.trailing_zeros() as usize).min(end - w * 64);
            }
        }
        end
    }
}

/// Marks the places of a row, all of them, that have something, and takes the other marks of its places away.
pub fn note_all(row: &[i128], marks: &mut Marks)
    requires long { length marks.old.words.items ≡ suc (length row.now / 64) }
    requires within { (j : ℕ) → length row.now ≤ j → mark_in marks.old.words.items j ≡ 0 }
    ensures long { length marks.new.words.items ≡ length marks.old.words.items }
    ensures marked { AreMarked row.now marks.new.words.items }
{
    for j in 0..row.len() {
        marks.note(j, row[j]);
    }
}

/// Takes the marks of a row away where it has nothing.
pub fn unmark_zeros(row: &[i128], marks: &mut Marks)
    requires long { length marks.old.words.items ≡ suc (length row.now / 64) }
    requires marked { AreMarked row.now marks.old.words.items }
    ensures long { length marks.new.words.items ≡ length marks.old.words.items }
    ensures marked { AreMarked row.now marks.new.words.items }
{
    let mut j = marks.next(0, row.len());
    while j < row.len() {
        if row[j] == 0 {
            marks.remove(j);
        }
        j = marks.next(j + 1, row.len());
    }
}

/// The same for a row of words.
pub fn unmark_zero_words(row: &[i64], marks: &mut Marks)
    requires long { length marks.old.words.items ≡ suc (length row.now / 64) }
    requires marked { AreMarked row.now marks.old.words.items }
    ensures long { length marks.new.words.items ≡ length marks.old.words.items }
    ensures marked { AreMarked row.now marks.new.words.items }
{
    let mut j = marks.next(0, row.len());
    while j < row.len() {
        if row[j] == 0 {
            marks.remove(j);
        }
        j = marks.next(j + 1, row.len());
    }
}
