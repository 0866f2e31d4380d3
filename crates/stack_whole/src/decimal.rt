//! Whole numbers as decimal text.

ghost use Rattle.std.specs.Prelude.{Some};

use itoa::{Buffer, Integer};
use std::fmt;

/// A whole number that is printed in decimal.
#[derive(Clone, Copy)]
pub struct Decimal<I: Integer>(pub I);

impl<I: Integer> fmt::Display for Decimal<I> {
    ghost output = { λ d. Some (I.text d.0) };

    fn fmt<W: fmt::Write>(&self, f: &mut fmt::Formatter<W>) -> fmt::Result {
        let mut buffer = Buffer::new();
        f.write_str(buffer.format(self.0))
    }
}
