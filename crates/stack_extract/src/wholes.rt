//! Whole numbers from fractions.

ghost use Rattle.std.specs.Prelude.{◌≡◌, ◌++◌, ◌∷◌, [], IfOk, IfErr};
ghost use Rattle.stack_extract.specs.Places.{AreWhole, TellsPlace, list_place};

use crate::types::{EndStep, ExtractError, Numbers, too_wide};
use stack_rational::{Frac, common_scale};
use std::alloc::{AllocError, Global};

/// A common scale, and numbers times that.
#[derive(Drop)]
pub(crate) struct WholeNumbers {
    pub scale: i128,
    pub numbers: Vec<i128>,
}

/// The common scale of a list, and each of its numbers times that. Refused at the first item at which the
/// running scale is too wide, or else at the first whole number that is.
pub(crate) fn whole_numbers(
    alloc: Global,
    which: Numbers,
    list: &[Frac<i128>],
) -> Result<WholeNumbers, ExtractError>
    ensures ok { IfOk result (λ r. AreWhole which list.now r.scale r.numbers.items) }
    ensures wide { IfErr result (λ e. TellsPlace e (list_place which list.now)) }
{
    let scale = match common_scale(list) {
        Ok(scale) => scale,
        Err(e) => return Err(too_wide(which, EndStep::Scale, e.index)),
    };
    let mut numbers = Vec::new(alloc);
    for (index, item) in list.iter().enumerate() {
        match item.scaled(scale) {
            Some(number) => numbers = longer(numbers, number)?,
            None => return Err(too_wide(which, EndStep::Whole, index)),
        }
    }
    Ok(WholeNumbers { scale, numbers })
}

/// A list with one more number.
fn longer(mut numbers: Vec<i128>, number: i128) -> Result<Vec<i128>, AllocError>
    ensures { IfOk result (λ r. r.items ≡ numbers.items ++ number ∷ []) }
{
    numbers.push(number)?;
    Ok(numbers)
}
