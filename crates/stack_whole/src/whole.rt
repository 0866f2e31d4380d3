//! Whole numbers of at most 2^127 - 1 in size.

ghost use Rattle.std.specs.Prelude.{◌≡◌, ◌+ℤ◌, ◌*ℤ◌, ◌-ℤ◌, pos, nat_abs};
ghost use Rattle.stack_whole.specs.Whole.{made, made_or_wide, whole};

use num_traits::{CheckedAdd, CheckedMul, CheckedNeg, CheckedSub};

/// A result is more than 2^127 - 1 in size.
#[derive(Clone, Copy, Debug, PartialEq, Eq)]
pub struct Wide;

/// A whole number that was made.
#[derive(Clone, Copy, Debug, PartialEq, Eq)]
pub struct Whole {
    pub value: i128,
}

/// The number, unless it is too wide: -2^127, the least number of 128 bits, is too.
fn keep(number: Option<i128>) -> Result<Whole, Wide>
    ensures { result ≡ made_or_wide number }
{
    match number {
        Some(value) => {
            if value == i128::MIN {
                Err(Wide)
            } else {
                Ok(Whole { value })
            }
        }
        None => Err(Wide),
    }
}

impl Whole {
    /// A number as it is.
    pub fn of(value: i128) -> Whole
        ensures { result ≡ whole value }
    {
        Whole { value }
    }

    /// A number of 64 bits as it is.
    pub fn widened(value: i64) -> Whole
        ensures { result ≡ whole value }
    {
        Whole {
            value: value as i128,
        }
    }

    /// The product of both. `Wide` exactly if it is more than 2^127 - 1 in size.
    pub fn product(self, other: Whole) -> Result<Whole, Wide>
        ensures { result ≡ made (self.value *ℤ other.value) }
    {
        keep(CheckedMul::checked_mul(&self.value, &other.value))
    }

    /// The sum of both. `Wide` exactly if it is more than 2^127 - 1 in size.
    pub fn sum(self, other: Whole) -> Result<Whole, Wide>
        ensures { result ≡ made (self.value +ℤ other.value) }
    {
        keep(CheckedAdd::checked_add(&self.value, &other.value))
    }

    /// This number minus the other. `Wide` exactly if the difference is more than 2^127 - 1 in size.
    pub fn difference(self, other: Whole) -> Result<Whole, Wide>
        ensures { result ≡ made (self.value -ℤ other.value) }
    {
        keep(CheckedSub::checked_sub(&self.value, &other.value))
    }

    /// The size of this number. `Wide` exactly if it is more than 2^127 - 1.
    pub fn size(self) -> Result<Whole, Wide>
        ensures { result ≡ made (pos (nat_abs self.value)) }
    {
        if self.value < 0 {
            keep(CheckedNeg::checked_neg(&self.value))
        } else {
            keep(Some(self.value))
        }
    }
}
