//! The rows that a pivot visits.

ghost use Rattle.std.specs.Prelude.{◌≡◌, ℕ, suc, ◌<◌, ◌≤◌, ◌/◌, length, true};
ghost use Rattle.stack_rows.specs.Marks.{mark_in};

use stack_rows::Marks;

/// Which rows a pivot visits: if all rows are known to fit those with a mark, and if not all.
#[derive(Drop)]
pub struct ToVisit {
    /// Marks of the rows in which the entering column has something.
    pub touched: Marks,
    /// Whether all cells of all rows are known to fit.
    pub all_fit: bool,
}

impl ToVisit {
    /// The next row to visit from one on; the end if there is none.
    pub fn next_row(&self, from: usize, end: usize) -> usize
        requires long { length self.now.touched.words.items ≡ suc (end / 64) }
        requires within { from ≤ end }
        ensures later { from ≤ result }
        ensures within { result ≤ end }
        ensures none { (j : ℕ) → from ≤ j → j < result →
            (self.now.all_fit ≡ true) × (mark_in self.now.touched.words.items j ≡ 0) }
    {
        if self.all_fit {
            self.touched.next(from, end)
        } else {
            from
        }
    }
}
