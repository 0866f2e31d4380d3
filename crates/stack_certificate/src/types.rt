//! Certificates: the forces and the motions that show whether a structure stands.

ghost use Rattle.std.specs.Prelude.{◌≡◌};
ghost use Rattle.stack_certificate.specs.declared.types.TextError.TheVariants as text_error;

use std::alloc::AllocError;

/// Forces at the bearings: for each its parts `a` and `b`, of which `a` times the normal and `b` times the tangent of
/// its frame act on the later body, in sixths of a unit of force, and `scale` times as great as the real forces. The
/// real factor of the live loads is `factor` over `scale`.
#[derive(Debug, PartialEq, Eq, Drop)]
pub struct Forces {
    pub scale: i128,
    pub factor: i128,
    pub parts: Vec<(i128, i128)>,
}

/// A motion of the free blocks: for each the velocity of its first stored corner to the right and upwards,
/// and its turning rate, counter-clockwise.
#[derive(Debug, PartialEq, Eq, Drop)]
pub struct Motion {
    pub moves: Vec<(i128, i128, i128)>,
}

/// What shows whether a structure stands, or what it bears.
#[derive(Debug, PartialEq, Eq, Drop)]
pub enum Certificate {
    /// Forces that carry the dead loads.
    Stands(Forces),
    /// A motion that no forces resist and on which the dead loads gain power.
    Collapses(Motion),
    /// Forces that carry the live loads with a factor, and a motion that forbids a greater one.
    Greatest(Forces, Motion),
    /// Forces that carry the live loads with a factor, and further ones that raise it without end.
    Unbounded(Forces, Forces),
}

/// Why bytes are no certificate.
#[derive(Clone, Copy, Debug, PartialEq, Eq)]
pub enum TextError {
    /// The bytes are the text of no certificate. The least number, counted from 1, such that so many of their
    /// lines begin no certificate's text; where all of them begin one, the number of the missing next line.
    Line { number: usize },
    /// Memory ran out.
    Memory,
}

impl From<AllocError> for TextError {
    ghost from_gives = { λ _ e. e ≡ text_error.Memory };

    fn from(_e: AllocError) -> TextError {
        TextError::Memory
    }
}
