//! The common scale of a list of fractions.

ghost use Rattle.std.specs.Prelude.{◌≡◌, ℕ, pos, ◌≤◌, IfOk, IfErr, length, take};
ghost use Rattle.stack_whole.specs.Whole.{greatest_number};
ghost use Rattle.stack_rational.specs.CommonScale.{IsFirstTooWide, ScaleIsLeastMultiple, TimesScaleIsWhole, scale_of};

use crate::frac::Frac;

/// The running multiple is more than 2^127 - 1 in size.
#[derive(Clone, Copy, Debug, PartialEq, Eq)]
pub struct ScaleWide {
    /// The first item at which it is.
    pub index: usize,
}

/// The least common multiple of the denominators, 1 for the empty list. Refused exactly if the running multiple is more
/// than 2^127 - 1 in size, with the first item at which it is. Takes no memory.
pub fn common_scale(list: &[Frac<i128>]) -> Result<i128, ScaleWide>
    ensures ok { IfOk result (λ n. n ≡ pos (scale_of list.now)) }
    ensures fits { IfOk result (λ n. (k : ℕ) → k ≤ length list.now → scale_of (take k list.now) ≤ greatest_number) }
    ensures wide { IfErr result (λ e. IsFirstTooWide list.now e.index) }
{
    let mut scale = 1;
    for (index, item) in list.iter().enumerate() {
        match item.joined(scale) {
            Some(next) => scale = next,
            None => return Err(ScaleWide { index }),
        }
    }
    Ok(scale)
}

/// The scale of a list is the least common multiple of its denominators, and a number times a multiple of its
/// denominator is the whole number that `times_scale` says.
pub fn scale_law()
    ensures least { ScaleIsLeastMultiple }
    ensures whole { TimesScaleIsWhole }
{}
