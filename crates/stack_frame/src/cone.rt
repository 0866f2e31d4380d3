//! Cones of friction.

ghost use Rattle.std.specs.Prelude.{◌≡◌, ◌↔◌, ◌*ℤ◌, int_le, IsTrue, IfOk, IsErr};
ghost use Rattle.stack_frame.specs.Cones.{IsCoefficient, IsReduced, IsLesser, coefficient, lesser_of, lowest};
ghost use Rattle.stack_frame.specs.Admitted.{IsAdmitted, IsTestTooWide, written_admission, written_test};

use crate::divisor::common_divisor;
use stack_whole::{Whole, Wide as ConeWide};
use std::marker::Model;

/// A coefficient of friction as it is written, `p` over `q`.
#[derive(Clone, Copy, Debug, PartialEq, Eq)]
pub struct Coefficient {
    /// The numerator, 0 to 1,000.
    pub p: i64,
    /// The denominator, 1 to 1,000.
    pub q: i64,
}

/// A coefficient of friction in lowest terms, `p` over `q`.
#[derive(Clone, Copy, Debug, PartialEq, Eq)]
pub struct Cone {
    /// The numerator, 0 to 1,000.
    pub p: i64,
    /// The denominator, 1 to 1,000.
    pub q: i64,
}

impl Model for Cone {
    ghost use Rattle.stack_frame.specs.declared.cone.Coefficient.{Coefficient};

    ghost Value = { Coefficient };

    ghost use Rattle.stack_frame.specs.Cones.{IsCone, coefficient};

    ghost view = { λ c. coefficient c.p c.q };

    ghost invariant = { λ c. IsCone (coefficient c.p c.q) };

    ghost inverse = { λ c. record { p = c.p; q = c.q } };
}

impl Cone {
    /// The coefficient `p` over `q`, in lowest terms. The numerator is from 0 to 1,000, and the denominator from 1 to
    /// 1,000. Takes no memory.
    pub fn new(p: i64, q: i64) -> Cone
        requires { IsCoefficient (coefficient p q) }
        ensures value { result ≡ lowest (coefficient p q) }
        ensures reduced { IsReduced (coefficient p q) result }
    {
        reduced(Coefficient { p, q })
    }

    /// Whether a force with the part `a` along the normal and the part `b` along the tangent pushes and stays within
    /// the cone: `a >= 0`, and `q` times the size of `b` is at most `p` times `a`. `ConeWide` exactly if `a >= 0` and
    /// `p` times `a`, the size of `b` or `q` times that size is more than 2^127 - 1 in size.
    pub fn admits(self, a: Whole, b: Whole) -> Result<bool, ConeWide>
        ensures value { result ≡ written_admission self a.value b.value }
        ensures admits { IfOk result (λ holds. IsTrue holds ↔ IsAdmitted self a.value b.value) }
        ensures wide { IsErr result ↔ IsTestTooWide self a.value b.value }
    {
        if a.value < 0 {
            return Ok(false);
        }
        self.holds(a, b)
    }

    /// Whether a force that pushes stays within the cone. `ConeWide` as `admits`.
    #[tactic(auto, unfolding(crate::specs::Admitted::written_test))]
    fn holds(self, a: Whole, b: Whole) -> Result<bool, ConeWide>
        ensures { result ≡ written_test self a.value b.value }
    {
        let most = Whole::widened(self.p).product(a)?;
        let tangential = b.size()?;
        let least = Whole::widened(self.q).product(tangential)?;
        Ok(least.value <= most.value)
    }
}

/// A coefficient in lowest terms.
fn reduced(of: Coefficient) -> Cone
    requires { IsCoefficient of }
    ensures { result ≡ lowest of }
{
    let p = of.p as u64;
    let q = of.q as u64;
    let divisor = common_divisor(p, q);
    Cone {
        p: (p / divisor) as i64,
        q: (q / divisor) as i64,
    }
}

/// Whether a coefficient is at most another one.
fn is_at_most(a: Coefficient, b: Coefficient) -> bool
    requires a { IsCoefficient a }
    requires b { IsCoefficient b }
    ensures { result ≡ int_le (a.p *ℤ b.q) (b.p *ℤ a.q) }
{
    a.p * b.q <= b.p * a.q
}

/// The lesser of two coefficients, in lowest terms.
fn lesser(a: Coefficient, b: Coefficient) -> Cone
    requires a { IsCoefficient a }
    requires b { IsCoefficient b }
    ensures value { result ≡ lesser_of a b }
    ensures lesser { IsLesser a b result }
{
    if is_at_most(a, b) {
        reduced(a)
    } else {
        reduced(b)
    }
}

/// The lesser of the two coefficients `p1` over `q1` and `p2` over `q2`, in lowest terms. Each numerator is from 0
/// to 1,000, and each denominator from 1 to 1,000.
pub fn cone_of(p1: i64, q1: i64, p2: i64, q2: i64) -> Cone
    requires first { IsCoefficient (coefficient p1 q1) }
    requires second { IsCoefficient (coefficient p2 q2) }
    ensures value { result ≡ lesser_of (coefficient p1 q1) (coefficient p2 q2) }
    ensures lesser { IsLesser (coefficient p1 q1) (coefficient p2 q2) result }
{
    lesser(Coefficient { p: p1, q: q1 }, Coefficient { p: p2, q: q2 })
}
