//! Signs and the order of exact numbers, as the choices test them.

ghost use Rattle.std.specs.Prelude.{◌≡◌};
ghost use Rattle.stack_algebra.proofs.OrderedFractions.{ordered_fractions};
ghost use Rattle.stack_algebra.specs.Ordered.{sign_of};
ghost use Rattle.stack_algebra.specs.Rows.{less};
ghost use Rattle.stack_bland.specs.Choice.{is_negative_sign, is_plus};
ghost use Rattle.stack_bland.specs.BySign.{by_sign};

use stack_rational::Exact;
use std::cmp::Ordering;

/// Whether a number is negative.
pub fn is_negative<S: Exact>(x: S) -> bool
    ensures { result ≡ is_negative_sign (sign_of (S.exact x).num) }
{
    x.sign() < 0
}

/// Whether a number is positive.
pub fn is_positive<S: Exact>(x: S) -> bool
    ensures { result ≡ is_plus (sign_of (S.exact x).num) }
{
    x.sign() > 0
}

/// The order of two numbers.
pub fn compare<S: Exact>(x: S, y: S) -> Ordering
    ensures { result ≡ by_sign (sign_of (less ordered_fractions (S.exact x) (S.exact y)).num) }
{
    x.order(y)
}
