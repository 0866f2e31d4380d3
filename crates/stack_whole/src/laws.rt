//! What it means that a number fits.

ghost use Rattle.std.specs.Prelude.{◌↔◌, ℤ, IsTrue};
ghost use Rattle.stack_whole.specs.Whole.{IsFitting, Makes, fits, made};

/// The test says what the fact says, and a number is made exactly if it fits.
pub fn fitting_law()
    ensures test { (z : ℤ) → IsTrue (fits z) ↔ IsFitting z }
    ensures made { (z : ℤ) → Makes z (made z) }
{}
