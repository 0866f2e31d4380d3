//! The parts of forces from the amounts of columns.

ghost use Rattle.std.specs.Prelude.{◌≡◌, pos, ◌*◌, ◌≤◌, ◌<◌, ◌≤ℤ◌, ◌-ℤ◌, ◌++◌, ◌∷◌, [], length, IfOk, IfErr};
ghost use Rattle.stack_whole.specs.Whole.{whole};
ghost use Rattle.stack_extract.specs.WholeLists.{amount, NonePulls};
ghost use Rattle.stack_extract.specs.Places.{AreParts, TellsPlace, part_place};
ghost use Rattle.stack_extract.specs.WrittenPart.{written_part};

use crate::types::{EndStep, ExtractError, Numbers, too_wide};
use stack_contact::Bearing;
use stack_equilibrium::Push;
use stack_frame::Cone;
use stack_whole::{Whole, Wide};
use std::alloc::{AllocError, Global};

/// The amount of a column.
fn amount(numbers: &[i128], column: usize) -> Whole
    requires { column < length numbers.now }
    ensures { result ≡ whole (amount numbers.now column) }
{
    Whole {
        value: numbers[column],
    }
}

/// An amount minus another, neither negative.
fn difference(w: Whole, v: Whole) -> Whole
    requires w { pos 0 ≤ℤ w.value }
    requires v { pos 0 ≤ℤ v.value }
    ensures { result ≡ whole (w.value -ℤ v.value) }
{
    Whole {
        value: w.value - v.value,
    }
}

/// The parts of a bearing's force from the amounts of its two columns.
#[tactic(auto, unfolding(crate::specs::WrittenPart::written_part))]
fn part(cone: Cone, w: Whole, v: Whole) -> Result<Push, Wide>
    requires w { pos 0 ≤ℤ w.value }
    requires v { pos 0 ≤ℤ v.value }
    ensures { result ≡ written_part cone w v }
{
    let sum = w.sum(v)?;
    let a = Whole::widened(cone.q).product(sum)?;
    let b = Whole::widened(cone.p).product(difference(w, v))?;
    Ok(Push { a, b })
}

/// A list with the parts of one more bearing.
fn longer(mut parts: Vec<(i128, i128)>, push: Push) -> Result<Vec<(i128, i128)>, AllocError>
    ensures { IfOk result (λ r. r.items ≡ parts.items ++ (push.a.value, push.b.value) ∷ []) }
{
    parts.push((push.a.value, push.b.value))?;
    Ok(parts)
}

/// The parts of all bearings from the amounts of the columns, none negative. Refused at the first bearing at
/// which a number is too wide.
pub(crate) fn force_parts(
    alloc: Global,
    which: Numbers,
    bearings: &[Bearing],
    numbers: &[i128],
) -> Result<Vec<(i128, i128)>, ExtractError>
    requires count { 2 * length bearings.now ≤ length numbers.now }
    requires pushes { NonePulls numbers.now }
    ensures ok { IfOk result (λ r. AreParts which bearings.now numbers.now r.items) }
    ensures wide { IfErr result (λ e. TellsPlace e (part_place which bearings.now numbers.now)) }
{
    let mut parts = Vec::new(alloc);
    for (k, bearing) in bearings.iter().enumerate() {
        match part(
            bearing.cone,
            amount(numbers, 2 * k),
            amount(numbers, 2 * k + 1),
        ) {
            Ok(push) => parts = longer(parts, push)?,
            Err(Wide) => return Err(too_wide(which, EndStep::Part, k)),
        }
    }
    Ok(parts)
}
