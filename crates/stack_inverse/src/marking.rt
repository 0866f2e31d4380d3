//! The marks of a table. They spare products with numbers that are 0.

ghost use Rattle.std.specs.Prelude.{◌≡◌, ◌≢◌, ℕ, suc, ◌+◌, ◌<◌, ◌≤◌, ◌/◌, length, IfOk};
ghost use Rattle.stack_whole.specs.Limits.{most_rows};
ghost use Rattle.stack_inverse.specs.Columns.{multipliers};
ghost use Rattle.stack_inverse.specs.Marks.{mark_at, HaveWords};

use crate::first::{COSTS, First};
use crate::making::number_of;
use crate::marks::{fill_lists, uses_of};
use crate::row::TableRow;
use crate::stops::NoTable;
use crate::to_visit::ToVisit;
use stack_bland::Found;
use stack_rows::{Marks, Pivot};
use std::alloc::Global;

/// The marks of a table.
#[derive(Drop)]
pub struct Marking {
    /// For each multiplier a list of marks: a row without one has 0 there.
    pub places: Vec<Marks>,
    /// For each first row and each row of costs a list of marks: a plain column without one has no number there.
    pub uses: Vec<Marks>,
    /// Marks of plain columns: in one without a mark the objective row isn't negative.
    pub open: Marks,
    /// The rows that the next pivot visits.
    pub to_visit: ToVisit,
    ghost places_wide: { HaveWords places.items (length to_visit.touched.words.items) },
    ghost uses_long: { length uses.items ≡ length places.items },
    ghost uses_wide: { HaveWords uses.items (length «open».words.items) },
}

/// For each multiplier a list of marks, in which the row of its number is marked.
fn first_places(alloc: Global, first: &First) -> Result<Vec<Marks>, NoTable>
    requires { first.now.rows ≤ most_rows }
    ensures long { IfOk result (λ l. length l.items ≡ multipliers first.now.rows) }
    ensures wide { IfOk result (λ l. HaveWords l.items (suc ((first.now.rows + 1) / 64))) }
    ensures diagonal { IfOk result (λ l. (r : ℕ) → r < multipliers first.now.rows → mark_at l.items r r ≢ 0) }
{
    let mut places = Vec::with_capacity(alloc, first.rows + COSTS)?;
    for r in 0..first.rows + COSTS {
        let mut marks = Marks::none(alloc, first.rows + 1)?;
        marks.put(r);
        places.push(marks)?;
    }
    Ok(places)
}

impl Marking {
    ghost use Rattle.std.specs.Prelude.{List, ℤ, pos};
    ghost use Rattle.std.specs.List.{AllByRecursion};
    ghost use Rattle.stack_bland.specs.Found.{TellsFound};
    ghost use Rattle.stack_rows.specs.RowForm.{number_at};
    ghost use Rattle.stack_inverse.specs.Columns.{RowSeen, cells_at};
    ghost use Rattle.stack_inverse.specs.FirstTable.{AreFilled};
    ghost use Rattle.stack_inverse.specs.RowsSeen.{seen_at, number_in_row};
    ghost use Rattle.stack_rows.specs.Marks.{mark_in};
    ghost use Rattle.stack_rows.specs.RowSeen.{numbers_of};
    ghost use Rattle.stack_inverse.specs.Marks.{least_negative};
    ghost use Rattle.stack_inverse.specs.Marking.{AreMarks, IsMarkedOn};

    /// The marks of the first rows; all plain columns are open.
    pub fn of_first(alloc: Global, first: &First) -> Result<Marking, NoTable>
        requires { first.now.rows ≤ most_rows }
        ensures { IfOk result (λ k. (right : List ℤ) (s : ℕ → RowSeen) → AreFilled first.now.rows right s →
            AreMarks first.now s k) }
    {
        let places = first_places(alloc, first)?;
        let uses = uses_of(alloc, first)?;
        let touched = Marks::none(alloc, first.rows + 1)?;
        let mut open = Marks::none(alloc, first.columns.len())?;
        open.fill();
        Ok(Marking {
            places,
            uses,
            open,
            to_visit: ToVisit {
                touched,
                all_fit: false,
            },
        })
    }

    /// Marks as touched the rows that may have something in one of a column's rows, and no others.
    pub fn touch(&mut self, first: &First, column: usize)
        requires column_in { column < length first.now.columns.items }
        requires long { length self.old.places.items ≡ multipliers first.now.rows }
        ensures marks { (s : ℕ → RowSeen) → AreMarks first.now s self.old → AreMarks first.now s self.new }
        ensures nothing { (s : ℕ → RowSeen) → AreMarks first.now s self.old → (i : ℕ) → i < first.now.rows →
            mark_in self.new.to_visit.touched.words.items i ≡ 0 → AllByRecursion
            (λ x. number_at (s i).numbers x.row ≡ pos 0) (cells_at first.now.columns.items column) }
    {
        self.to_visit.touched.clear();
        let cells = first.columns[column].cells.as_slice();
        for cell in cells {
            self.to_visit.touched.join(&self.places[cell.row]);
        }
    }

    /// Brings the marks up to date after a pivot: those rows are touched in which its column had something. If the
    /// pivot wasn't done, all is marked.
    pub fn mark_on(&mut self, done: bool, pivot: &Pivot)
        requires { length (numbers_of pivot.now.row) ≡ suc (length self.old.places.items) }
        ensures { IsMarkedOn done (numbers_of pivot.now.row) self.old self.new }
    {
        self.to_visit.all_fit = done;
        if !done {
            fill_lists(self.places.as_mut_slice());
            self.open.fill();
            return;
        }
        for i in 0..pivot.listed {
            let r = usize::from(pivot.list[i]);
            self.places[r].join(&self.to_visit.touched);
            self.open.join(&self.uses[r]);
        }
    }

    /// Opens all plain columns for another objective row, which isn't known to fit.
    pub fn reopen(&mut self)
        ensures { (f : First) (s t : ℕ → RowSeen) → ((i : ℕ) → i < f.rows → t i ≡ s i) → AreMarks f s self.old →
            AreMarks f t self.new }
    {
        self.to_visit.all_fit = false;
        self.open.fill();
    }

    /// The least plain column in which the objective row is negative, looked for among those that are open. Clears the
    /// marks of those before it. Likely gives up if a sum of products doesn't fit.
    pub fn least_negative(&mut self, first: &First, rows: &[TableRow]) -> Found<usize>
        requires height { length rows.now ≡ suc first.now.rows }
        requires marks { AreMarks first.now (seen_at rows.now) self.old }
        ensures marks { AreMarks first.now (seen_at rows.now) self.new }
        ensures found { TellsFound result (least_negative (number_in_row first.now (seen_at rows.now first.now.rows))
            (length first.now.columns.items)) }
    {
        let row = &rows[first.rows];
        let end = first.columns.len();
        let mut j = self.open.next(0, end);
        while j < end {
            match number_of(first, row, j) {
                Some(number) => if number < 0 {
                    return Found::This(j);
                },
                None => return Found::GaveUp,
            }
            self.open.remove(j);
            j = self.open.next(j + 1, end);
        }
        Found::Nothing
    }
}
