//! What a pivot makes of a row.

ghost use Rattle.std.specs.Prelude.{◌≡◌, ℕ, ◌-◌, pos, ◌*ℤ◌, false, length, OnSome, IfSome};
ghost use Rattle.stack_rows.specs.RowForm.{IsTaken, IsSameRow, IsPutOver, IsRight, AreSmall, AreSmallBelow};
ghost use Rattle.stack_rows.specs.EntriesSeen.{entries_of};
ghost use Rattle.stack_rows.specs.RowSeen.{numbers_of};

use crate::factors::Factors;
use crate::guesses::{guess_by_numbers, guess_of, sums_after};
use crate::pivot::Pivot;
use crate::row::Row;
use crate::stepping::fit;
use crate::sums::CheckSums;
use crate::taking::{number_after, raise, right_after, under_of};
use crate::ways::{BroadStep, SmallStep};
use crate::words::{product, whole_product};
use stack_rational::{Exact, Frac};

impl Row {
    /// Makes of the row k times itself minus t times another one, over a number, divided by what they go by, or by a
    /// lesser number. `numbers`: those of the other one without its right side.
    fn change(&mut self, other: &Row, numbers: &[i128], s: &BroadStep, over: i128) -> Option<()>
        requires numbers { numbers.now ≡ entries_of other.now.entries }
        requires width { length (numbers_of other.now) ≡ length (numbers_of self.old) }
        ensures width { length (numbers_of self.new) ≡ length (numbers_of self.old) }
        ensures ok { OnSome result (IsTaken (numbers_of self.old) over (numbers_of other.now) s.now.factors.times
            s.now.factors.less (numbers_of self.new) self.new.under) }
    {
        let top = self.top;
        let fit = fit(s.factors, top, other.top);
        let made = self.entries.step(&other.entries, numbers, s, fit);
        self.top = made.top;
        let by = made.by?;
        let right = number_after(self.right, other.right, s, by)?;
        let under = under_of(over, by)?;
        if under <= 0 {
            return None;
        }
        self.right = right;
        self.under = under;
        self.sums = sums_after(self, other, s.factors, by, top);
        self.settle();
        self.grow_old();
        Some(())
    }

    /// Brings the numbers but the right side, which are over a denominator, over one with which the right side can be
    /// put, and puts that: this cell. Gives up where a number doesn't fit.
    fn put_right(&mut self, under: i128, right: Frac<i128>) -> Option<()>
        ensures width { length (numbers_of self.new) ≡ length (numbers_of self.old) }
        ensures ok { OnSome result (IsPutOver (entries_of self.old.entries) under right.num (pos right.den)
            (entries_of self.new.entries) self.new.right self.new.under) }
    {
        let raised = raise(under, right)?;
        let number = raised.part.checked_mul(right.parts().0)?;
        let made = self.entries.multiply(raised.more);
        self.top = made.top;
        made.by?;
        self.entries.find_marks();
        self.entries.settle(made.top);
        self.right = number;
        self.under = raised.under;
        self.sums = CheckSums::of_entries(&self.entries);
        self.age = 0;
        Some(())
    }

    /// The same as `change` where the cell that the right side becomes is given.
    fn change_apart(
        &mut self,
        other: &Row,
        numbers: &[i128],
        s: &BroadStep,
        over: i128,
        right: Frac<i128>,
    ) -> Option<()>
        requires numbers { numbers.now ≡ entries_of other.now.entries }
        requires width { length (numbers_of other.now) ≡ length (numbers_of self.old) }
        requires right { IsRight (numbers_of self.old) over (numbers_of other.now) s.now.factors.times
            s.now.factors.less right.num (pos right.den) }
        ensures width { length (numbers_of self.new) ≡ length (numbers_of self.old) }
        ensures ok { OnSome result (IsTaken (numbers_of self.old) over (numbers_of other.now) s.now.factors.times
            s.now.factors.less (numbers_of self.new) self.new.under) }
    {
        let fit = fit(s.factors, self.top, other.top);
        let made = self.entries.step(&other.entries, numbers, s, fit);
        self.top = made.top;
        let by = made.by?;
        let under = under_of(over, by)?;
        self.put_right(under, right)
    }

    /// Takes a multiple of the pivot row from the row, where all numbers but the right side are small; `over` is its
    /// denominator then. Gives up where the right side doesn't fit, or the denominator isn't positive.
    fn take_small_over(&mut self, pivot: &Pivot, step: &SmallStep, over: i128) -> Option<()>
        requires own { self.old.entries.wide ≡ false }
        requires other { pivot.now.row.entries.wide ≡ false }
        requires width { length (numbers_of pivot.now.row) ≡ length (numbers_of self.old) }
        requires small { AreSmallBelow (length (numbers_of self.old) - 1) step.now.times step.now.less
            (numbers_of self.old) (numbers_of pivot.now.row) }
        ensures width { length (numbers_of self.new) ≡ length (numbers_of self.old) }
        ensures ok { OnSome result (IsTaken (numbers_of self.old) over (numbers_of pivot.now.row) step.now.times
            step.now.less (numbers_of self.new) self.new.under) }
    {
        if over <= 0 {
            return None;
        }
        let right = right_after(self.right, pivot.row.right, step)?;
        let made = self.entries.step_small(pivot, step, self.top);
        self.top = made.top;
        made.by?;
        self.right = right;
        self.under = over;
        self.sums = self
            .sums
            .stepped_by_words(pivot.row.sums, step.times, step.less);
        self.grow_old();
        Some(())
    }

    /// The step of small words, where both rows are kept as words, and small. Gives up where they may not be.
    fn small_step(&self, other: &Row, factors: Factors) -> Option<SmallStep>
        ensures own { OnSome result (self.now.entries.wide ≡ false) }
        ensures other { OnSome result (other.now.entries.wide ≡ false) }
        ensures times { IfSome result (λ p. p.times ≡ factors.times) }
        ensures less { IfSome result (λ p. p.less ≡ factors.less) }
        ensures small { OnSome result (AreSmall factors.times factors.less self.now.top other.now.top) }
    {
        if self.entries.wide {
            return None;
        }
        if other.entries.wide {
            return None;
        }
        SmallStep::of(factors, self.top, other.top, self.under.unsigned_abs())
    }

    /// Takes a multiple of the pivot row from the row, and what all its numbers have in common out. Gives up where a
    /// number doesn't fit.
    pub fn take(&mut self, pivot: &Pivot, factors: Factors) -> Option<()>
        requires { length (numbers_of pivot.now.row) ≡ length (numbers_of self.old) }
        ensures width { length (numbers_of self.new) ≡ length (numbers_of self.old) }
        ensures ok { OnSome result (IsTaken (numbers_of self.old) (self.old.under *ℤ factors.times)
            (numbers_of pivot.now.row) factors.times factors.less (numbers_of self.new) self.new.under) }
    {
        let over = whole_product(self.under, factors.times)?;
        let other = &pivot.row;
        match self.small_step(other, factors) {
            Some(step) => return self.take_small_over(pivot, &step, over),
            None => {}
        }
        let guess = guess_of(self, other, factors, self.under);
        self.change(
            other,
            pivot.numbers.as_slice(),
            &BroadStep::of(factors, guess),
            over,
        )
    }

    /// The same where what the step makes of the right side is given as a cell, since its number doesn't fit before it
    /// is divided.
    pub fn take_apart(&mut self, pivot: &Pivot, factors: Factors, right: Frac<i128>) -> Option<()>
        requires width { length (numbers_of pivot.now.row) ≡ length (numbers_of self.old) }
        requires right { IsRight (numbers_of self.old) (self.old.under *ℤ factors.times) (numbers_of pivot.now.row)
            factors.times factors.less right.num (pos right.den) }
        ensures width { length (numbers_of self.new) ≡ length (numbers_of self.old) }
        ensures ok { OnSome result (IsTaken (numbers_of self.old) (self.old.under *ℤ factors.times)
            (numbers_of pivot.now.row) factors.times factors.less (numbers_of self.new) self.new.under) }
    {
        let whole = whole_product(self.under, factors.times)?;
        let numbers = pivot.numbers.as_slice();
        let guess = guess_by_numbers(&self.entries, numbers, factors, self.under);
        self.change_apart(
            &pivot.row,
            numbers,
            &BroadStep::of(factors, guess),
            whole,
            right,
        )
    }

    /// The same where all numbers but the right side are known to be small. Gives up where the right side or the
    /// denominator doesn't fit.
    pub fn take_small(&mut self, pivot: &Pivot, step: &SmallStep) -> Option<()>
        requires width { length (numbers_of pivot.now.row) ≡ length (numbers_of self.old) }
        requires small { AreSmallBelow (length (numbers_of self.old) - 1) step.now.times step.now.less
            (numbers_of self.old) (numbers_of pivot.now.row) }
        ensures width { length (numbers_of self.new) ≡ length (numbers_of self.old) }
        ensures ok { OnSome result (IsTaken (numbers_of self.old) (self.old.under *ℤ step.now.times)
            (numbers_of pivot.now.row) step.now.times step.now.less (numbers_of self.new) self.new.under) }
    {
        if self.entries.wide {
            return self.take(pivot, step.factors());
        }
        if pivot.row.entries.wide {
            return self.take(pivot, step.factors());
        }
        let over = product(self.under, step.times)?;
        self.take_small_over(pivot, step, over)
    }

    /// Divides the row, which is a copy of `row`, by a number. `numbers`: those of the row without its right side.
    /// Gives up if the number is 0, and likely never otherwise.
    pub(crate) fn divide_by(&mut self, row: &Row, numbers: &[i128], number: i128) -> Option<()>
        requires same { numbers_of self.old ≡ numbers_of row.now }
        requires numbers { numbers.now ≡ entries_of row.now.entries }
        ensures width { length (numbers_of self.new) ≡ length (numbers_of self.old) }
        ensures ok { OnSome result (IsSameRow (numbers_of row.now) number (numbers_of self.new) self.new.under) }
    {
        if number == 0 {
            return None;
        }
        let over = number.checked_abs()?;
        let sign = Factors {
            times: number.signum(),
            less: 0,
        };
        let guess = guess_of(row, row, sign, over);
        self.change(row, numbers, &BroadStep::of(sign, guess), over)?;
        self.find_marks();
        Some(())
    }
}
