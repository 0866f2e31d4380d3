//! The types of a survey.

ghost use Rattle.std.specs.Prelude.{◌≡◌};
ghost use Rattle.stack_contact.specs.declared.types.SurveyError.TheVariants as survey_error;

use stack_frame::{Cone, Frame};
use stack_model::Model;
use stack_polygon::Point;
use std::alloc::AllocError;

/// A point at which two bodies bear on one another. Bodies are told by their numbers in the model, from 0.
#[derive(Clone, Copy, Debug, PartialEq, Eq)]
pub struct Bearing {
    /// The earlier body.
    pub first: usize,
    /// The later body.
    pub second: usize,
    pub at: Point,
    /// The tangent of the joint, with the later body on its left.
    pub frame: Frame,
    /// The friction between the two bodies: that of the joint of their materials, or else the lesser of the two
    /// materials'.
    pub cone: Cone,
}

/// A point that is a corner of two bodies and all that they have in common. It bears nothing.
#[derive(Clone, Copy, Debug, PartialEq, Eq)]
pub struct Touch {
    /// The earlier body.
    pub first: usize,
    /// The later body.
    pub second: usize,
    pub at: Point,
}

/// The contacts of one pair of bodies.
#[derive(Clone, Copy, Debug, PartialEq, Eq)]
pub enum Contacts {
    /// The two neither bear on one another nor touch.
    Free,
    /// They touch at a point.
    Touching(Point),
    /// They bear at one point.
    AtOne {
        at: Point,
        frame: Frame,
    },
    /// They bear at two points; `from` comes before `to` by x, then y.
    AtTwo {
        from: Point,
        to: Point,
        frame: Frame,
    },
}

/// A model with its contacts: all bearings, at most 1,024, and all touches, each by first body, second body, x
/// and y. No two of its bodies overlap, other than pairs of fixed ones.
#[derive(Debug, Drop)]
pub struct Survey {
    pub(crate) model: Model,
    pub(crate) bearings: Vec<Bearing>,
    pub(crate) touches: Vec<Touch>,
}

impl std::marker::Model for Survey {
    ghost use Rattle.stack_contact.specs.Surveyed.{Surveyed, IsSurvey, surveyed};

    ghost Value = { Surveyed };

    ghost view = { λ s. surveyed s.model s.bearings.items s.touches.items };

    ghost invariant = { λ s. IsSurvey s.model (surveyed s.model s.bearings.items s.touches.items) };
}

/// Why a model has no survey.
#[derive(Clone, Copy, Debug, PartialEq, Eq)]
pub enum SurveyError {
    /// The first two bodies, not both fixed, that no edge separates.
    Overlap { first: usize, second: usize },
    /// No two bodies overlap, and the bearings are more than 1,024.
    TooManyBearings { count: usize },
    /// Memory ran out.
    Memory,
}

impl From<AllocError> for SurveyError {
    ghost from_gives = { λ _ e. e ≡ survey_error.Memory };

    fn from(_e: AllocError) -> SurveyError {
        SurveyError::Memory
    }
}
