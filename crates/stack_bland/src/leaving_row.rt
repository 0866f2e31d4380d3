//! The leaving row.

ghost use Rattle.std.specs.Prelude.{◌≡◌, ◌<◌, cond, None, Some, OnOk, IfOk, IfErr, IfSome};
ghost use Rattle.stack_algebra.proofs.OrderedFractions.{ordered_fractions};
ghost use Rattle.stack_algebra.specs.Ordered.{sign_of};
ghost use Rattle.stack_algebra.specs.Rows.{less};
ghost use Rattle.stack_rational.specs.TooWide.{is_too_wide};
ghost use Rattle.stack_table.specs.Table.{columns};
ghost use Rattle.stack_table.specs.Seen.{shape_of_table, table_of};
ghost use Rattle.stack_bland.specs.Choice.{goes_first, leaving, ratio_row};

use crate::signs::{compare, is_positive};
use stack_rational::Exact;
use stack_table::Table;
use std::cmp::Ordering;

/// The first row with a positive cell whose ratio is too wide.
#[derive(Clone, Copy, Debug, PartialEq, Eq, Drop)]
pub struct RatioWide {
    pub row: usize,
}

/// A row that may leave, and its ratio.
#[derive(Clone, Copy)]
struct Candidate<S> {
    row: usize,
    ratio: S,
}

/// The better of a row and the best row before it: the lesser ratio, and then the lesser basic column.
fn better<S: Exact>(t: &Table<S>, best: Option<Candidate<S>>, next: Candidate<S>) -> Candidate<S>
    requires next_in { next.row < (shape_of_table t.now).rows }
    requires best_in { IfSome best (λ b. b.row < (shape_of_table t.now).rows) }
    ensures none { best ≡ None → result ≡ next }
    ensures some { IfSome best (λ b. result
        ≡ cond (goes_first (sign_of (less ordered_fractions (S.exact next.ratio) (S.exact b.ratio)).num)
        ((table_of t.now).basic next.row) ((table_of t.now).basic b.row)) next b) }
{
    match best {
        None => next,
        Some(old) => {
            let first = match compare(next.ratio, old.ratio) {
                Ordering::Less => true,
                Ordering::Equal => t.basic(next.row) < t.basic(old.row),
                Ordering::Greater => false,
            };
            if first { next } else { old }
        }
    }
}

/// Among the rows with a positive cell in the column, the one with the least ratio of right side to cell; among equal
/// ratios, the one with the least basic column. The objective row isn't one of them. None exactly if no cell of the
/// column is positive.
///
/// Refused at the first ratio that is too wide, by rising rows.
pub fn leaving<S: Exact>(t: &Table<S>, column: usize) -> Result<Option<usize>, RatioWide>
    requires { column < columns (shape_of_table t.now) }
    ensures ok { IfOk result (λ r.
        r ≡ leaving ordered_fractions (shape_of_table t.now) (table_of t.now) column) }
    ensures fits { OnOk result
        (ratio_row ordered_fractions (shape_of_table t.now) (is_too_wide S.MAX) (table_of t.now) column ≡ None) }
    ensures wide { IfErr result (λ e.
        ratio_row ordered_fractions (shape_of_table t.now) (is_too_wide S.MAX) (table_of t.now) column
        ≡ Some e.row) }
{
    let right = t.columns();
    let mut best: Option<Candidate<S>> = None;
    for i in 0..t.rows() {
        let cell = t.cell(i, column);
        if is_positive(cell) {
            let ratio = match t.cell(i, right).quotient(cell) {
                Ok(ratio) => ratio,
                Err(_) => return Err(RatioWide { row: i }),
            };
            best = Some(better(t, best, Candidate { row: i, ratio }));
        }
    }
    match best {
        None => Ok(None),
        Some(found) => Ok(Some(found.row)),
    }
}
