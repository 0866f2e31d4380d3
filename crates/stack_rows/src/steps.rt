//! What a step makes of the numbers of a row without its right side.

ghost use Rattle.std.specs.Prelude.{◌≡◌, ℕ, ◌≤◌, ℤ, pos, ◌*ℤ◌, unsigned_abs, true, false, List, length, OnSome};
ghost use Rattle.std.specs.Prelude.{IfSome};
ghost use Rattle.stack_rows.specs.RowForm.{number_at, IsDivided, IsStepped, IsRemade, AreWithinTop, AreSmall, AreFit};
ghost use Rattle.stack_rows.specs.RowForm.{AreMarked, IsDividedPart, IsPartTopped};
ghost use Rattle.stack_rows.specs.EntriesSeen.{entries_of};

use crate::entries::Entries;
use crate::marks::note_all;
use crate::pivot::Pivot;
use crate::remaking::{Cells, remake};
use crate::stepping::{Reached, WordsReached, divide, multiply_before, small_listed, words_from};
use crate::ways::{BroadStep, SmallStep, WordWay};

/// What is made of the numbers of a row: by what they are divided or multiplied, if all are made, and a top of them.
#[derive(Clone, Copy)]
pub struct Stepped {
    pub by: Option<i128>,
    pub top: u128,
}

impl Entries {
    /// A step of words, at the places with a mark, as far as it goes.
    fn step_marked<W: WordWay>(&mut self, other: &Entries, way: &W) -> Reached
        requires own { self.old.wide ≡ false }
        requires other { other.now.wide ≡ false }
        requires width { length (entries_of other.now) ≡ length (entries_of self.old) }
        requires marked { AreMarked (entries_of other.now) self.old.marks.words.items }
        requires takes { (j : ℕ) → W.takes way.now (unsigned_abs (number_at (entries_of self.old) j))
            (unsigned_abs (number_at (entries_of other.now) j)) }
        ensures width { length (entries_of self.new) ≡ length (entries_of self.old) }
        ensures marks { self.new.marks.words.items ≡ self.old.marks.words.items }
        ensures stepped { IsStepped (entries_of self.old) (entries_of other.now) self.old.marks.words.items
            (W.times way.now) (W.less way.now) (W.by way.now) 0 0 result.end (entries_of self.new) result.size }
        ensures before { result.end ≤ length (entries_of self.old) }
    {
        let from = WordsReached { end: 0, size: 0 };
        let reached = words_from(
            self.words.as_mut_slice(),
            other.words.as_slice(),
            self.marks.words.as_slice(),
            way,
            from,
        );
        Reached {
            end: reached.end,
            size: u128::from(reached.size),
        }
    }

    /// A step of small words that aren't multiplied, at the places of the pivot row alone. Gives a top of them, by one
    /// that they had.
    fn step_listed(&mut self, pivot: &Pivot, less: i64, top: u128) -> u128
        requires own { self.old.wide ≡ false }
        requires other { pivot.now.row.entries.wide ≡ false }
        requires width { length (entries_of pivot.now.row.entries) ≡ length (entries_of self.old) }
        requires marked { AreMarked (entries_of pivot.now.row.entries) self.old.marks.words.items }
        requires small { (j : ℕ) → AreSmall (pos 1) less (unsigned_abs (number_at (entries_of self.old) j))
            (unsigned_abs (number_at (entries_of pivot.now.row.entries) j)) }
        requires top { AreWithinTop (entries_of self.old) top }
        ensures width { length (entries_of self.new) ≡ length (entries_of self.old) }
        ensures divided { IsDivided (entries_of self.old) (entries_of pivot.now.row.entries) (pos 1) less (pos 1)
            (entries_of self.new) }
        ensures top { AreWithinTop (entries_of self.new) result }
    {
        small_listed(
            self.words.as_mut_slice(),
            pivot.row.entries.words.as_slice(),
            pivot.list.as_slice(),
            pivot.listed,
            less,
            top,
        )
    }

    /// A step of small words.
    pub(crate) fn step_small(&mut self, pivot: &Pivot, step: &SmallStep, top: u128) -> Stepped
        requires own { self.old.wide ≡ false }
        requires other { pivot.now.row.entries.wide ≡ false }
        requires width { length (entries_of pivot.now.row.entries) ≡ length (entries_of self.old) }
        requires small { (j : ℕ) → AreSmall step.now.times step.now.less
            (unsigned_abs (number_at (entries_of self.old) j))
            (unsigned_abs (number_at (entries_of pivot.now.row.entries) j)) }
        requires top { AreWithinTop (entries_of self.old) top }
        ensures width { length (entries_of self.new) ≡ length (entries_of self.old) }
        ensures divided { OnSome result.by (IsDivided (entries_of self.old) (entries_of pivot.now.row.entries)
            step.now.times step.now.less (pos 1) (entries_of self.new)) }
        ensures top { AreWithinTop (entries_of self.new) result.top }
    {
        self.marks.join(&pivot.row.entries.marks);
        if step.times == 1 {
            let top = self.step_listed(pivot, step.less, top);
            return Stepped { by: Some(1), top };
        }
        let reached = self.step_marked(&pivot.row.entries, step);
        let count = self.count();
        if count <= reached.end {
            return Stepped {
                by: Some(1),
                top: reached.size,
            };
        }
        Stepped {
            by: None,
            top: self.top(),
        }
    }

    /// A step in words, as far as it goes.
    fn step_words(&mut self, other: &Entries, s: &BroadStep) -> Reached
        requires width { length (entries_of other.now) ≡ length (entries_of self.old) }
        requires marked { AreMarked (entries_of other.now) self.old.marks.words.items }
        ensures width { length (entries_of self.new) ≡ length (entries_of self.old) }
        ensures marks { self.new.marks.words.items ≡ self.old.marks.words.items }
        ensures stepped { IsStepped (entries_of self.old) (entries_of other.now) self.old.marks.words.items
            s.now.factors.times s.now.factors.less s.now.divider.by 0 0 result.end (entries_of self.new) result.size }
        ensures before { result.end ≤ length (entries_of self.old) }
    {
        let none = Reached { end: 0, size: 0 };
        if self.wide {
            return none;
        }
        if other.wide {
            return none;
        }
        match &s.words {
            Some(way) => self.step_marked(other, way),
            None => none,
        }
    }

    /// Goes on with a step of any numbers from the place that is reached.
    fn step_on(&mut self, numbers: &[i128], s: &BroadStep, fit: bool, from: Reached) -> Stepped
        requires width { length numbers.now ≡ length (entries_of self.old) }
        requires marked { AreMarked numbers.now self.old.marks.words.items }
        requires from { from.end ≤ length (entries_of self.old) }
        requires topped { IsPartTopped 0 from.end (entries_of self.old) from.size }
        requires fit { fit ≡ true → (j : ℕ) → from.end ≤ j → AreFit s.now.factors.times s.now.factors.less
            (unsigned_abs (number_at (entries_of self.old) j)) (unsigned_abs (number_at numbers.now j)) }
        ensures width { length (entries_of self.new) ≡ length (entries_of self.old) }
        ensures ok { IfSome result.by (λ by. (old : List ℤ) → IsDividedPart old numbers.now s.now.factors.times
            s.now.factors.less s.now.divider.by 0 from.end (entries_of self.old) → IsDivided old numbers.now
            s.now.factors.times s.now.factors.less by (entries_of self.new)) }
        ensures top { AreWithinTop (entries_of self.new) result.top }
    {
        self.widen();
        let made = divide(
            self.numbers.as_mut_slice(),
            numbers,
            self.marks.words.as_slice(),
            s,
            fit,
            from,
        );
        match made {
            Some(made) => Stepped {
                by: Some(made.by),
                top: made.top,
            },
            None => Stepped {
                by: None,
                top: self.top(),
            },
        }
    }

    /// Makes of each number k times itself minus t times that of another row, divided by a guess of what all have in
    /// common, or by a lesser number. `numbers`: those of the other row. `fit`: what is divided fits.
    pub(crate) fn step(
        &mut self,
        other: &Entries,
        numbers: &[i128],
        s: &BroadStep,
        fit: bool,
    ) -> Stepped
        requires numbers { numbers.now ≡ entries_of other.now }
        requires width { length (entries_of other.now) ≡ length (entries_of self.old) }
        requires fit { fit ≡ true → (j : ℕ) → AreFit s.now.factors.times s.now.factors.less
            (unsigned_abs (number_at (entries_of self.old) j)) (unsigned_abs (number_at numbers.now j)) }
        ensures width { length (entries_of self.new) ≡ length (entries_of self.old) }
        ensures ok { IfSome result.by (λ by. IsDivided (entries_of self.old) (entries_of other.now)
            s.now.factors.times s.now.factors.less by (entries_of self.new)) }
        ensures top { AreWithinTop (entries_of self.new) result.top }
    {
        self.marks.join(&other.marks);
        let reached = self.step_words(other, s);
        let count = self.count();
        if count <= reached.end {
            return Stepped {
                by: Some(s.divider.by),
                top: reached.size,
            };
        }
        self.step_on(numbers, s, fit, reached)
    }

    /// Multiplies all numbers. Gives up where one doesn't fit.
    pub(crate) fn multiply(&mut self, by: i128) -> Stepped
        ensures width { length (entries_of self.new) ≡ length (entries_of self.old) }
        ensures ok { IfSome result.by (λ by. (j : ℕ) → number_at (entries_of self.new) j
            ≡ number_at (entries_of self.old) j *ℤ by) }
        ensures by { IfSome result.by (λ r. r ≡ by) }
        ensures top { AreWithinTop (entries_of self.new) result.top }
    {
        self.widen();
        let count = self.count();
        let made = multiply_before(self.numbers.as_mut_slice(), count, by);
        let top = self.top();
        match made {
            Some(_) => Stepped { by: Some(by), top },
            None => Stepped { by: None, top },
        }
    }

    /// Makes the numbers anew of their cells over a denominator.
    pub(crate) fn remake<C: Cells>(&mut self, pivot: &[i128], cells: &C, common: i128) -> Stepped
        requires { length pivot.now ≡ length (entries_of self.old) }
        ensures width { length (entries_of self.new) ≡ length (entries_of self.old) }
        ensures ok { OnSome result.by (IsRemade (entries_of self.old) (C.over cells.now) pivot.now
            (C.times cells.now) (C.less cells.now) (entries_of self.new) common) }
        ensures top { AreWithinTop (entries_of self.new) result.top }
    {
        self.widen();
        let made = remake(self.numbers.as_mut_slice(), pivot, cells, common);
        note_all(self.numbers.as_slice(), &mut self.marks);
        let top = self.top();
        match made {
            Some(_) => Stepped {
                by: Some(common),
                top,
            },
            None => Stepped { by: None, top },
        }
    }
}
