//! A table of a run, as its phases ask it.

use stack_bland::Found;
use stack_rational::OpWide;
use stack_table::TurnRefusal;
use std::cmp::Ordering;

/// The table of a run, whatever stores it. What a call answers is exact. A call may also give up, with None or
/// `Unsettled`: no clause says when, but a table that settles all never does. No call takes memory.
pub trait Tableau {
    ghost use Rattle.std.specs.Prelude.{◌≡◌, ◌≢◌, ℕ, ◌<◌, ◌≤◌, ℤ, pos, Bool, cond, OnOk, OnSome, IfOk, IfSome};
    ghost use Rattle.stack_algebra.specs.Fraction.{Fraction};
    ghost use Rattle.stack_algebra.specs.Ordered.{sign_of};
    ghost use Rattle.stack_algebra.specs.Rows.{less};
    ghost use Rattle.stack_algebra.proofs.OrderedFractions.{ordered_fractions};
    ghost use Rattle.stack_rational.specs.TooWide.{is_too_wide};
    ghost use Rattle.stack_table.specs.Table.{Shape, Tabled, plain, right, pivoted_at, clear_objective};
    ghost use Rattle.stack_table.specs.Table.{set_factor_objective};
    ghost use Rattle.stack_table.specs.Spots.{pivot_spot};
    ghost use Rattle.stack_bland.specs.BySign.{by_sign};
    ghost use Rattle.stack_bland.specs.Choice.{entering, is_negative_sign, is_nought};
    ghost use Rattle.stack_bland.specs.Found.{TellsFound};
    ghost use Rattle.stack_tableau.specs.Answers.{IsAnswered, IsSettled, TellsRatio, TellsPivoted};

    /// The representation of a row's ratio.
    type Ratio: Copy;

    // Its numbers of rows, of contact columns and of factor columns.
    ghost shape: { Self → Shape };

    // Its cells as exact fractions by row and column, and the basic column of each row.
    ghost table: { Self → Tabled Fraction };

    // Whether a row was flipped.
    ghost flips: { Self → ℕ → Bool };

    // The cells of a column are at hand.
    ghost has_at_hand: { Self → ℕ → Type 0 };

    // The value of a ratio.
    ghost ratio: { Self.Ratio → Fraction };

    // The greatest size of a numerator, and the greatest denominator.
    ghost MAX: { ℤ };

    // Whether it settles all.
    ghost settles: { Bool };

    fn rows(&self) -> usize
        ensures { result ≡ (shape self.now).rows };

    fn contacts(&self) -> usize
        ensures { result ≡ (shape self.now).contacts };

    /// How many columns aren't artificial.
    fn plain(&self) -> usize
        ensures { result ≡ plain (shape self.now) };

    /// Whether there is a factor column, behind the contact columns.
    fn has_factor(&self) -> bool
        ensures { (shape self.now).factors ≡ cond result 1 0 };

    /// The basic column of a row.
    fn basic(&self, i: usize) -> usize
        requires { i < (shape self.now).rows }
        ensures { result ≡ (table self.now).basic i };

    /// The least column below `among` with a negative objective cell.
    fn entering_of(&self, among: usize) -> Found<usize>
        requires { among ≤ plain (shape self.now) }
        ensures value { TellsFound result (entering ordered_fractions (shape self.now) (table self.now) among) }
        ensures settled { IsSettled settles result };

    /// Makes the cells of a column, and has them at hand.
    fn enter(&mut self, column: usize) -> Option<()>
        requires { column < plain (shape self.old) }
        ensures shape { shape self.new ≡ shape self.old }
        ensures flips { flips self.new ≡ flips self.old }
        ensures table { table self.new ≡ table self.old }
        ensures at_hand { OnSome result (has_at_hand self.new column) }
        ensures settled { IsAnswered settles result };

    /// The ratio of a row for a column at hand: its right side by its cell, and none where the cell isn't positive.
    /// Refused exactly if it is too wide.
    fn ratio_of(&self, i: usize, column: usize) -> Result<Option<Self::Ratio>, OpWide>
        requires i_in { i < (shape self.now).rows }
        requires column_in { column < plain (shape self.now) }
        requires at_hand { has_at_hand self.now column }
        ensures { TellsRatio ratio MAX (shape self.now) (table self.now) column i result };

    /// The order of two ratios.
    fn order_of(x: Self::Ratio, y: Self::Ratio) -> Option<Ordering>
        ensures value { IfSome result (λ o. o ≡ by_sign (sign_of (less ordered_fractions (ratio x) (ratio y)).num)) }
        ensures settled { IsAnswered settles result };

    /// Whether the cell of a row in a plain column is 0.
    fn is_nothing(&self, i: usize, j: usize) -> Option<bool>
        requires i_in { i < (shape self.now).rows }
        requires j_in { j < plain (shape self.now) }
        ensures value { IfSome result (λ b. b ≡ is_nought (sign_of ((table self.now).cell i j).num)) }
        ensures settled { IsAnswered settles result };

    /// Whether the objective's right side is negative.
    fn falls_short(&self) -> bool
        ensures { result ≡ is_negative_sign (ordered_fractions.sign
            (right ordered_fractions (shape self.now) (table self.now) (shape self.now).rows)) };

    /// A pivot at a row and a column at hand whose cell in the row isn't 0. Refused at the first operation that is too
    /// wide; the table is spent then.
    fn pivot(&mut self, row: usize, column: usize) -> Result<(), TurnRefusal>
        requires row_in { row < (shape self.old).rows }
        requires column_in { column < plain (shape self.old) }
        requires cell { ((table self.old).cell row column).num ≢ pos 0 }
        requires at_hand { has_at_hand self.old column }
        ensures shape { OnOk result (shape self.new ≡ shape self.old) }
        ensures flips { OnOk result (flips self.new ≡ flips self.old) }
        ensures table { OnOk result (table self.new
            ≡ pivoted_at ordered_fractions (shape self.old) (table self.old) row column) }
        ensures spot { TellsPivoted settles result
            (pivot_spot ordered_fractions (is_too_wide MAX) (shape self.old) (table self.old) row column) };

    /// Sets the objective row to 0, its right side too.
    fn clear_objective(&mut self) -> Option<()>
        ensures shape { OnSome result (shape self.new ≡ shape self.old) }
        ensures flips { OnSome result (flips self.new ≡ flips self.old) }
        ensures table { OnSome result (table self.new
            ≡ clear_objective ordered_fractions (shape self.old) (table self.old)) }
        ensures settled { IsAnswered settles result };

    /// Sets the objective row to that of the factor.
    fn set_factor_objective(&mut self) -> Option<()>
        requires { (shape self.old).factors ≡ 1 }
        ensures shape { OnSome result (shape self.new ≡ shape self.old) }
        ensures flips { OnSome result (flips self.new ≡ flips self.old) }
        ensures table { OnSome result (table self.new
            ≡ set_factor_objective ordered_fractions (shape self.old) (table self.old)) }
        ensures settled { IsAnswered settles result };
}
