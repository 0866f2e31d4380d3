//! The choice of a turn, by Bland's rule: the entering column and the leaving row.

ghost use Rattle.std.specs.Prelude.{◌≡◌, ◌<◌, ◌≤◌, cond, None, Some, OnOk, IfOk, IfErr, IfSome};
ghost use Rattle.stack_algebra.proofs.OrderedFractions.{ordered_fractions};
ghost use Rattle.stack_algebra.specs.Ordered.{sign_of};
ghost use Rattle.stack_algebra.specs.Rows.{less};
ghost use Rattle.stack_rational.specs.TooWide.{is_too_wide};
ghost use Rattle.stack_table.specs.Table.{plain};
ghost use Rattle.stack_bland.specs.Choice.{goes_first, leaving, ratio, ratio_item, ratio_row};
ghost use Rattle.stack_run.specs.WrittenRun.{chosen_at, choose};
ghost use Rattle.stack_tableau.specs.Answers.{IsAnswered, TellsNoRatio};
ghost use Rattle.stack_tableau.specs.Best.{HoldsNext};
ghost use Rattle.stack_tableau.specs.Tells.{TellsRow, TellsChoice, IsReady};

use crate::tableau::Tableau;
use stack_bland::Found;
use stack_table::{PivotWide, Step, TurnRefusal};
use std::cmp::Ordering;

/// A row that may leave, and its ratio.
#[derive(Clone, Copy)]
pub struct LeavingRow<R> {
    pub row: usize,
    pub ratio: R,
}

/// The outcome of a turn's pricing and ratio test, if nothing is refused.
pub enum Chosen {
    /// No column enters.
    Stays,
    /// The column enters, and no row leaves.
    Rises(usize),
    /// A pivot is due.
    Due { row: usize, column: usize },
}

/// The better of a row and the best row before it: the lesser ratio, and then the lesser basic column.
fn better<T: Tableau>(
    t: &T,
    best: Option<LeavingRow<T::Ratio>>,
    next: LeavingRow<T::Ratio>,
) -> Option<LeavingRow<T::Ratio>>
    requires next_in { next.row < (T.shape t.now).rows }
    requires best_in { IfSome best (λ b. b.row < (T.shape t.now).rows) }
    ensures none { IfSome result (λ r. best ≡ None → r ≡ next) }
    ensures some { IfSome result (λ r. IfSome best (λ b. r
        ≡ cond (goes_first (sign_of (less ordered_fractions (T.ratio next.ratio) (T.ratio b.ratio)).num)
        ((T.table t.now).basic next.row) ((T.table t.now).basic b.row)) next b)) }
    ensures settled { IsAnswered T.settles result }
{
    match best {
        None => Some(next),
        Some(old) => {
            let first = match T::order_of(next.ratio, old.ratio) {
                Some(Ordering::Less) => true,
                Some(Ordering::Equal) => t.basic(next.row) < t.basic(old.row),
                Some(Ordering::Greater) => false,
                None => return None,
            };
            if first { Some(next) } else { Some(old) }
        }
    }
}

/// The best row so far, with one row more.
fn next_best<T: Tableau>(
    t: &T,
    best: Option<LeavingRow<T::Ratio>>,
    i: usize,
    column: usize,
) -> Result<Option<LeavingRow<T::Ratio>>, TurnRefusal>
    requires i_in { i < (T.shape t.now).rows }
    requires column_in { column < plain (T.shape t.now) }
    requires at_hand { T.has_at_hand t.now column }
    requires best_in { IfSome best (λ b. b.row < (T.shape t.now).rows) }
    ensures holds { IfOk result (λ r. HoldsNext T.ratio (λ i. (T.table t.now).cell i column)
        (ratio ordered_fractions (T.shape t.now) (T.table t.now) column) (T.table t.now).basic i best r) }
    ensures fits { OnOk result
        (ratio_item ordered_fractions (T.shape t.now) (is_too_wide T.MAX) (T.table t.now) column i ≡ None) }
    ensures wide { IfErr result (λ e. TellsNoRatio T.settles e column i
        (ratio_item ordered_fractions (T.shape t.now) (is_too_wide T.MAX) (T.table t.now) column i)) }
{
    match t.ratio_of(i, column) {
        Ok(None) => Ok(best),
        Ok(Some(ratio)) => match better(t, best, LeavingRow { row: i, ratio }) {
            Some(next) => Ok(Some(next)),
            None => Err(TurnRefusal::Unsettled),
        },
        Err(_) => Err(TurnRefusal::TooWide(PivotWide {
            row: i,
            column,
            step: Step::Ratio,
        })),
    }
}

/// Among the rows with a positive cell in the column, the one with the least ratio of right side to cell; among equal
/// ratios, the one with the least basic column. The objective row isn't one of them. None exactly if no cell of the
/// column is positive.
///
/// Refused at the first ratio that is too wide, by rising rows.
pub fn leaving<T: Tableau>(t: &T, column: usize) -> Result<Option<usize>, TurnRefusal>
    requires column_in { column < plain (T.shape t.now) }
    requires at_hand { T.has_at_hand t.now column }
    ensures ok { IfOk result (λ r. r ≡ leaving ordered_fractions (T.shape t.now) (T.table t.now) column) }
    ensures tells { TellsRow T.settles column result (chosen_at column
        (ratio_row ordered_fractions (T.shape t.now) (is_too_wide T.MAX) (T.table t.now) column)
        (leaving ordered_fractions (T.shape t.now) (T.table t.now) column)) }
{
    let mut best: Option<LeavingRow<T::Ratio>> = None;
    for i in 0..t.rows() {
        match next_best(t, best, i, column) {
            Ok(next) => best = next,
            Err(refusal) => return Err(refusal),
        }
    }
    match best {
        None => Ok(None),
        Some(found) => Ok(Some(found.row)),
    }
}

/// The choice of a turn whose entering columns are below `among`.
pub fn choose<T: Tableau>(t: &mut T, among: usize) -> Result<Chosen, TurnRefusal>
    requires { among ≤ plain (T.shape t.old) }
    ensures shape { T.shape t.new ≡ T.shape t.old }
    ensures flips { T.flips t.new ≡ T.flips t.old }
    ensures table { T.table t.new ≡ T.table t.old }
    ensures ready { IfOk result (λ x. IsReady (T.shape t.new) (T.table t.new) (T.has_at_hand t.new) x) }
    ensures tells { TellsChoice T.settles result
        (choose ordered_fractions (T.shape t.old) (is_too_wide T.MAX) (T.table t.old) among) }
{
    let column = match t.entering_of(among) {
        Found::This(column) => column,
        Found::Nothing => return Ok(Chosen::Stays),
        Found::GaveUp => return Err(TurnRefusal::Unsettled),
    };
    match t.enter(column) {
        Some(()) => {}
        None => return Err(TurnRefusal::Unsettled),
    }
    match leaving(t, column) {
        Ok(Some(row)) => Ok(Chosen::Due { row, column }),
        Ok(None) => Ok(Chosen::Rises(column)),
        Err(refusal) => Err(refusal),
    }
}
