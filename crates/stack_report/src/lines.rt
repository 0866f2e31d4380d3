//! The lines of a table, without their line feeds.

ghost use Rattle.std.specs.Prelude.{◌≡◌, ◌+◌, Some};
ghost use Rattle.stack_model.specs.ModelView.{model_view};
ghost use Rattle.stack_report.specs.ContactTable.{name_of, pair_text, directions_text, point_and_directions};
ghost use Rattle.stack_report.specs.ContactTable.{bearing_text, touch_text};

use stack_contact::{Bearing, Touch};
use stack_frame::{Cone, Frame};
use stack_model::Model;
use stack_polygon::Point;
use stack_whole::Decimal;
use std::fmt;

/// A number as users count, from 1.
pub fn number(index: usize) -> u128
    ensures { result ≡ index + 1 }
{
    index as u128 + 1
}

/// The name of body `i`; empty if there is none.
pub fn name(model: &Model, i: usize) -> &str
    ensures { result.now ≡ name_of (model_view model.now) i }
{
    if i < model.bodies() {
        model.name(i)
    } else {
        ""
    }
}

/// Two numbers.
#[derive(Clone, Copy)]
struct TwoNumbers {
    a: i64,
    b: i64,
}

/// The coordinates of a point.
fn point(at: Point) -> TwoNumbers
    ensures { result ≡ record { a = at.x; b = at.y } }
{
    TwoNumbers { a: at.x, b: at.y }
}

/// The parts of a tangent.
fn tangent(frame: Frame) -> TwoNumbers
    ensures { result ≡ record { a = frame.tx; b = frame.ty } }
{
    TwoNumbers {
        a: frame.tx,
        b: frame.ty,
    }
}

/// The terms of a coefficient of friction.
fn friction(cone: Cone) -> TwoNumbers
    ensures { result ≡ record { a = cone.p; b = cone.q } }
{
    TwoNumbers {
        a: cone.p,
        b: cone.q,
    }
}

/// The tangent and the coefficient of friction of a bearing.
#[derive(Clone, Copy)]
struct Directions {
    bearing: Bearing,
}

/// The numbers of a bearing: its point, its tangent and its coefficient of friction.
#[derive(Clone, Copy)]
struct BearingNumbers {
    bearing: Bearing,
}

/// A bearing with its number, from 0, and the names of its bodies.
#[derive(Clone, Copy)]
pub struct BearingLine<'a> {
    pub index: usize,
    pub first: &'a str,
    pub second: &'a str,
    pub bearing: Bearing,
}

/// A touch with its number, from 0, and the names of its bodies.
#[derive(Clone, Copy)]
pub struct TouchLine<'a> {
    pub index: usize,
    pub first: &'a str,
    pub second: &'a str,
    pub touch: Touch,
}

impl fmt::Display for TwoNumbers {
    ghost output = { λ p. Some (pair_text p.a p.b) };

    #[tactic(auto, unfolding(crate::specs::ContactTable::pair_text))]
    fn fmt<W: fmt::Write>(&self, f: &mut fmt::Formatter<W>) -> fmt::Result {
        write!(f, "{} {}", Decimal(self.a), Decimal(self.b))
    }
}

impl fmt::Display for Directions {
    ghost output = { λ d. Some (directions_text d.bearing) };

    #[tactic(auto, unfolding(crate::specs::ContactTable::directions_text))]
    fn fmt<W: fmt::Write>(&self, f: &mut fmt::Formatter<W>) -> fmt::Result {
        let tangent = tangent(self.bearing.frame);
        let friction = friction(self.bearing.cone);
        write!(f, "{tangent} {friction}")
    }
}

impl fmt::Display for BearingNumbers {
    ghost output = { λ n. Some (point_and_directions n.bearing) };

    #[tactic(auto, unfolding(crate::specs::ContactTable::point_and_directions))]
    fn fmt<W: fmt::Write>(&self, f: &mut fmt::Formatter<W>) -> fmt::Result {
        let at = point(self.bearing.at);
        let directions = Directions {
            bearing: self.bearing,
        };
        write!(f, "{at} {directions}")
    }
}

impl fmt::Display for BearingLine<'_> {
    ghost output = { λ l. Some (bearing_text l.index l.first.now l.second.now l.bearing) };

    fn fmt<W: fmt::Write>(&self, f: &mut fmt::Formatter<W>) -> fmt::Result {
        let numbers = BearingNumbers {
            bearing: self.bearing,
        };
        write!(
            f,
            "bearing {} {} {} {numbers}",
            Decimal(number(self.index)),
            self.first,
            self.second
        )
    }
}

impl fmt::Display for TouchLine<'_> {
    ghost output = { λ l. Some (touch_text l.index l.first.now l.second.now l.touch) };

    fn fmt<W: fmt::Write>(&self, f: &mut fmt::Formatter<W>) -> fmt::Result {
        let at = point(self.touch.at);
        write!(
            f,
            "touch {} {} {} {at}",
            Decimal(number(self.index)),
            self.first,
            self.second
        )
    }
}
