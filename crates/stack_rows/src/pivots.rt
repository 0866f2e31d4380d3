//! The making of the pivot row.

ghost use Rattle.std.specs.Prelude.{◌≡◌, ◌≢◌, ℕ, suc, ◌/◌, ◌<◌, ◌≤◌, ◌^◌, ℤ, pos, length, get_or, IfOk, OnSome};
ghost use Rattle.stack_rows.specs.RowForm.{number_at, AreListed, AreMarked, IsSameRow};
ghost use Rattle.stack_rows.specs.RowSeen.{numbers_of};

use crate::marks::Marks;
use crate::pivot::Pivot;
use crate::row::Row;
use std::alloc::{AllocError, Global};

/// Lists the marked places of a row. Gives how many there are.
fn list_places(row: &[i128], marks: &Marks, list: &mut [u16]) -> usize
    requires room { length list.old ≡ length row.now }
    requires few { length row.now < 2 ^ 16 }
    requires long { length marks.now.words.items ≡ suc (length row.now / 64) }
    requires marked { AreMarked row.now marks.now.words.items }
    ensures { AreListed row.now list.new result }
{
    let mut count = 0;
    let mut j = marks.next(0, row.len());
    while j < row.len() {
        list[count] = j as u16;
        count += 1;
        j = marks.next(j + 1, row.len());
    }
    count
}

impl Pivot {
    /// Zeros over 1.
    pub fn zeros(alloc: Global, width: u16) -> Result<Pivot, AllocError>
        requires { 0 < width }
        ensures width { IfOk result (λ p. length (numbers_of p.row) ≡ width) }
        ensures zeros { IfOk result (λ p. (j : ℕ) → number_at (numbers_of p.row) j ≡ pos 0) }
        ensures under { IfOk result (λ p. p.row.under ≡ pos 1) }
    {
        let row = Row::zeros(alloc, width)?;
        let numbers = Vec::from_elem(alloc, 0, usize::from(width - 1))?;
        let list = Vec::from_elem(alloc, 0, usize::from(width - 1))?;
        Ok(Pivot {
            row,
            numbers,
            list,
            listed: 0,
        })
    }

    /// Sets it to `row` divided by `number`. Gives up if that is 0, and likely never otherwise.
    pub fn divide(&mut self, row: &Row, number: i128) -> Option<()>
        requires { length (numbers_of row.now) ≡ length (numbers_of self.old.row) }
        ensures width { length (numbers_of self.new.row) ≡ length (numbers_of self.old.row) }
        ensures ok { OnSome result (IsSameRow (numbers_of row.now) number (numbers_of self.new.row)
            self.new.row.under) }
    {
        self.row.copy_from(row);
        row.entries.write(self.numbers.as_mut_slice());
        let made = self.row.divide_by(row, self.numbers.as_slice(), number);
        self.row.entries.write(self.numbers.as_mut_slice());
        self.listed = list_places(
            self.numbers.as_slice(),
            &self.row.entries.marks,
            self.list.as_mut_slice(),
        );
        made
    }
}
