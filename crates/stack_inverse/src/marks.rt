//! Lists of marks: a place without a mark has nothing.

ghost use Rattle.std.specs.Prelude.{◌≡◌, ◌≢◌, ℕ, suc, ◌<◌, ◌≤◌, ◌/◌, length, IfOk};
ghost use Rattle.std.specs.List.{AllByRecursion};
ghost use Rattle.stack_whole.specs.Limits.{most_rows};
ghost use Rattle.stack_inverse.specs.Columns.{multipliers, cells_at};
ghost use Rattle.stack_inverse.specs.Marks.{list_at, mark_at, HaveWords, AreUses};

use crate::columns::{Cell, FirstColumn};
use crate::first::{COSTS, First};
use crate::stops::NoTable;
use stack_rows::Marks;
use std::alloc::Global;

/// Marks a place in a list.
fn mark_place(lists: &mut [Marks], r: usize, j: usize)
    requires list { r < length lists.old }
    requires place { j / 64 < length (list_at lists.old r) }
    ensures long { length lists.new ≡ length lists.old }
    ensures wide { (w : ℕ) → HaveWords lists.old w → HaveWords lists.new w }
    ensures kept { (k i : ℕ) → mark_at lists.old k i ≢ 0 → mark_at lists.new k i ≢ 0 }
    ensures marked { mark_at lists.new r j ≢ 0 }
{
    lists[r].put(j);
}

/// Marks all places of each list.
pub fn fill_lists(lists: &mut [Marks])
    ensures long { length lists.new ≡ length lists.old }
    ensures wide { (w : ℕ) → HaveWords lists.old w → HaveWords lists.new w }
    ensures each { (w r i : ℕ) → HaveWords lists.old w → r < length lists.old → i / 64 < w → mark_at lists.new r i ≡ 1 }
{
    for r in 0..lists.len() {
        lists[r].fill();
    }
}

/// Marks a column in the lists of its rows.
fn mark_use(uses: &mut [Marks], cells: &[Cell], j: usize, width: usize)
    requires wide { HaveWords uses.old (suc (width / 64)) }
    requires rows { AllByRecursion (λ x. x.row < length uses.old) cells.now }
    requires within { j ≤ width }
    ensures long { length uses.new ≡ length uses.old }
    ensures wide { HaveWords uses.new (suc (width / 64)) }
    ensures kept { (r i : ℕ) → mark_at uses.old r i ≢ 0 → mark_at uses.new r i ≢ 0 }
    ensures marked { AllByRecursion (λ x. mark_at uses.new x.row j ≢ 0) cells.now }
{
    for cell in cells {
        mark_place(uses, cell.row, j);
    }
}

/// Marks all columns in the lists of their rows.
fn mark_uses(uses: &mut [Marks], columns: &[FirstColumn])
    requires wide { HaveWords uses.old (suc (length columns.now / 64)) }
    requires rows { (j : ℕ) → j < length columns.now → AllByRecursion (λ x. x.row < length uses.old)
        (cells_at columns.now j) }
    ensures long { length uses.new ≡ length uses.old }
    ensures wide { HaveWords uses.new (suc (length columns.now / 64)) }
    ensures uses { AreUses uses.new columns.now }
{
    for j in 0..columns.len() {
        mark_use(uses, columns[j].cells.as_slice(), j, columns.len());
    }
}

/// For each first row and each row of costs a list that marks the columns with a number there.
pub fn uses_of(alloc: Global, first: &First) -> Result<Vec<Marks>, NoTable>
    requires { first.now.rows ≤ most_rows }
    ensures long { IfOk result (λ u. length u.items ≡ multipliers first.now.rows) }
    ensures wide { IfOk result (λ u. HaveWords u.items (suc (length first.now.columns.items / 64))) }
    ensures uses { IfOk result (λ u. AreUses u.items first.now.columns.items) }
{
    let mut uses = Vec::with_capacity(alloc, first.rows + COSTS)?;
    for _ in 0..first.rows + COSTS {
        uses.push(Marks::none(alloc, first.columns.len())?)?;
    }
    mark_uses(uses.as_mut_slice(), first.columns.as_slice());
    Ok(uses)
}
