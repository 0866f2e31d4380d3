//! By what a row is likely divided after a step. These are hints: what is divided by one is tested.

ghost use Rattle.std.specs.Prelude.{◌≡◌, length};
ghost use Rattle.stack_rows.specs.EntriesSeen.{entries_of};

use crate::entries::Entries;
use crate::factors::Factors;
use crate::row::Row;
use crate::sums::{CheckSums, common_with};
use crate::words::size_product;

/// By how many numbers a row's divisor is guessed.
const ENOUGH: u8 = 8;

/// Sums of numbers of more than this size may not have fitted on the way.
const SUMMABLE: u128 = 1 << 118;

/// Whether a step makes numbers of these tops so great that their check sums may not fit on the way.
fn may_wrap(own: u128, other: u128, factors: Factors) -> bool {
    let left = size_product(own, factors.times.unsigned_abs());
    let right = size_product(factors.less.unsigned_abs(), other);
    match (left, right) {
        (Some(left), Some(right)) => SUMMABLE < (left | right),
        _ => true,
    }
}

/// The right side after a step, modulo 2^128: a hint.
fn right_hint(own: i128, other: i128, factors: Factors) -> i128 {
    let left = own.wrapping_mul(factors.times);
    left.wrapping_sub(factors.less.wrapping_mul(other))
}

/// A number that should go into all numbers of a row after a step, and into a number, as a hint.
pub fn guess_of(row: &Row, other: &Row, factors: Factors, into: i128) -> i128 {
    let right = right_hint(row.right, other.right, factors);
    row.sums
        .stepped(other.sums, factors.times, factors.less)
        .common_with(common_with(right, into))
}

/// The same by the first numbers of the row that aren't 0 then, where the check sums may not have fitted.
pub fn guess_by_numbers(entries: &Entries, other: &[i128], factors: Factors, into: i128) -> i128
    requires { length other.now ≡ length (entries_of entries.now) }
{
    let mut guess = into;
    let mut seen: u8 = 0;
    for j in 0..entries.count() {
        let left = entries.at(j).wrapping_mul(factors.times);
        let made = left.wrapping_sub(factors.less.wrapping_mul(other[j]));
        if made != 0 {
            guess = common_with(made, guess);
            seen = seen.saturating_add(1);
        }
        if guess == 1 || ENOUGH <= seen {
            return guess;
        }
    }
    guess
}

/// The check sums of a row that is stepped and divided, whose numbers are made: anew where they may not have fitted on
/// the way. `top`: a top of the numbers that the row had.
pub fn sums_after(row: &Row, other: &Row, factors: Factors, by: i128, top: u128) -> CheckSums {
    if may_wrap(top, other.top, factors) {
        CheckSums::of_entries(&row.entries)
    } else {
        row.sums
            .stepped(other.sums, factors.times, factors.less)
            .divided(by)
    }
}
