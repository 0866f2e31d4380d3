//! Fractions in lowest terms.

ghost use Rattle.std.specs.Prelude.{◌≡◌, pos, Some};
ghost use Rattle.stack_algebra.specs.IntegerOrder.{◌≺◌};
ghost use Rattle.stack_whole.specs.Whole.{IsFitting};
ghost use Rattle.stack_report.specs.ForceTable.{lowest_ratio, ratio_text};

use stack_rational::{Exact, over};
use stack_whole::{Decimal, Whole};
use std::fmt;

/// A fraction in lowest terms, with a positive denominator.
#[derive(Clone, Copy, Debug, PartialEq, Eq)]
pub struct Ratio {
    pub num: i128,
    pub den: i128,
}

impl fmt::Display for Ratio {
    ghost output = { λ r. Some (ratio_text r) };

    #[tactic(auto, unfolding(crate::specs::ForceTable::ratio_text))]
    fn fmt<W: fmt::Write>(&self, f: &mut fmt::Formatter<W>) -> fmt::Result {
        write!(f, "{}/{}", Decimal(self.num), Decimal(self.den))
    }
}

/// `n` over `d`, which is positive, in lowest terms.
pub fn lowest_terms(n: Whole, d: Whole) -> Ratio
    requires numerator { IsFitting n.value }
    requires denominator { IsFitting d.value }
    requires positive { pos 0 ≺ d.value }
    ensures { result ≡ lowest_ratio n.value d.value }
{
    let (num, den) = over(n.value, d.value).parts();
    Ratio { num, den }
}
