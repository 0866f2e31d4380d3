//! What a row step takes of the pivot row, and whether it fits.

ghost use Rattle.std.specs.Prelude.{◌≡◌, ◌≤◌, ◌+◌, ◌*◌, pos, ◌*ℤ◌, ◌<ℤ◌, unsigned_abs, true, IfSome};
ghost use Rattle.stack_rational.specs.Laws.{widest};
ghost use Rattle.stack_rows.specs.RowForm.{StepFits};

use crate::divider::Divider;
use crate::words::size_product;
use num_traits::CheckedAdd;
use stack_rational::divisor_of;

/// The greatest size.
pub const WIDEST: u128 = i128::MAX as u128;

/// How many times as great a row's numbers are made, and how many times the pivot row's are then taken from them.
#[derive(Clone, Copy)]
pub struct Factors {
    pub times: i128,
    pub less: i128,
}

/// The factors of a row step, in the ratio of the denominator of the pivot row to the row's number in the pivot's
/// column. Gives up if that denominator isn't positive, and likely never otherwise.
pub fn factors_of(number: i128, pivot_under: Divider) -> Option<Factors>
    ensures some { IfSome result (λ r. pos 0 <ℤ r.times) }
    ensures cross { IfSome result (λ r. number *ℤ r.times ≡ r.less *ℤ pivot_under.by) }
{
    match pivot_under.exact(number) {
        Some(less) => return Some(Factors { times: 1, less }),
        None => {}
    }
    let common = divisor_of(number.unsigned_abs(), pivot_under.by.unsigned_abs());
    let divider = Divider::of(common.cast_signed());
    let times = divider.exact(pivot_under.by)?;
    let less = divider.exact(number)?;
    if times <= 0 {
        return None;
    }
    Some(Factors { times, less })
}

/// The greatest size of what a step makes of numbers of at most these sizes, and of the row's denominator then, before
/// what all have in common is taken out. Gives up where one doesn't fit.
fn most_of(under: i128, factors: Factors, own: u128, pivot: u128) -> Option<u128>
    ensures numbers { IfSome result (λ r. own * unsigned_abs factors.times + unsigned_abs factors.less * pivot ≤ r) }
    ensures under { IfSome result (λ r. unsigned_abs (under *ℤ factors.times) ≤ r) }
{
    let left = size_product(own, factors.times.unsigned_abs())?;
    let right = size_product(factors.less.unsigned_abs(), pivot)?;
    let most = CheckedAdd::checked_add(&left, &right)?;
    let over = size_product(under.unsigned_abs(), factors.times.unsigned_abs())?;
    if most < over { Some(over) } else { Some(most) }
}

/// Whether all fits that a step makes of numbers of at most these sizes, and the row's denominator then. The answer no
/// isn't pinned.
pub fn step_fits(under: i128, factors: Factors, own: u128, pivot: u128) -> bool
    ensures { result ≡ true → StepFits widest under factors.times factors.less own pivot }
{
    match most_of(under, factors, own, pivot) {
        Some(most) => most <= WIDEST,
        None => false,
    }
}
