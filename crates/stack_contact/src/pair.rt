//! The contacts of one pair of polygons.

ghost use Rattle.std.specs.Prelude.{◌≡◌, ◌<◌, length, MatchBool, MatchOption, IfSome};
ghost use lib.IntN.{pos};
ghost use Rattle.stack_algebra.specs.IntegerOrder.{◌≺◌};
ghost use Rattle.stack_polygon.specs.Corners.{corner_of, end_of};
ghost use Rattle.stack_polygon.specs.Limits.{IsInRange, IsPolygon};
ghost use Rattle.stack_overlap.specs.Forms.{square};
ghost use Rattle.stack_overlap.specs.Separation.{IsSeparatedBy, Overlaps};
ghost use Rattle.stack_contact.specs.Surveyed.{AreSeparated};
ghost use Rattle.stack_contact.specs.PairContacts.{IsFrameFrom, IsTangentBy, AreContacts, contacts_by};

use crate::types::Contacts;
use stack_frame::{Frame, frame_of};
use stack_overlap::{Common, Edge, Which, common, separator};
use stack_polygon::{Point, Polygon, next};

/// The direction from `a` to `b` in lowest terms.
fn frame_from(a: Point, b: Point) -> Frame
    requires a { IsInRange a }
    requires b { IsInRange b }
    requires apart { pos 0 ≺ square a b }
    ensures { IsFrameFrom a b result }
{
    frame_of(b.x - a.x, b.y - a.y)
}

/// The direction of edge `i`, or from its end to its start.
fn edge_frame(p: &Polygon, i: usize, back: bool) -> Frame
    requires { i < length p.now }
    ensures polygon { IsPolygon p.now }
    ensures frame { MatchBool back (IsFrameFrom (end_of p.now i) (corner_of p.now i) result)
        (IsFrameFrom (corner_of p.now i) (end_of p.now i) result) }
{
    let a = p.corner(i);
    let b = p.corner(next(p.len(), i));
    if back {
        frame_from(b, a)
    } else {
        frame_from(a, b)
    }
}

/// The tangent of a pair: along the separating edge, with the second body on its left.
fn tangent_of(p: &Polygon, q: &Polygon, e: Edge) -> Frame
    requires { IsSeparatedBy p.now q.now e.which e.index }
    ensures { IsTangentBy p.now q.now e.which e.index result }
{
    match e.which {
        Which::First => edge_frame(p, e.index, true),
        Which::Second => edge_frame(q, e.index, false),
    }
}

/// The contacts of a pair with these common points and this tangent.
fn made(points: Common, frame: Frame) -> Contacts
    ensures { result ≡ contacts_by points frame }
{
    match points {
        Common::Nothing => Contacts::Free,
        Common::Corner(at) => Contacts::Touching(at),
        Common::OnEdge { at, edge: _ } => Contacts::AtOne { at, frame },
        Common::Segment { from, to } => Contacts::AtTwo { from, to, frame },
    }
}

/// Exactly the bearings and the touches of two polygons, of which the first is the earlier body's. `None` exactly if no
/// edge of either separates them, and then some point is strictly inside both; where an edge does, none is. Takes no
/// memory.
pub fn contacts(p: &Polygon, q: &Polygon) -> Option<Contacts>
    ensures found { IfSome result (λ c. AreContacts p.now q.now c) }
    ensures separated { MatchOption result (¬ (AreSeparated p.now q.now)) (λ c. AreSeparated p.now q.now) }
    ensures overlap { MatchOption result (Overlaps p.now q.now) (λ c. ¬ (Overlaps p.now q.now)) }
{
    p.valid();
    q.valid();
    match separator(p, q) {
        None => None,
        Some(e) => {
            let points = common(p, q, e);
            let tangent = tangent_of(p, q, e);
            Some(made(points, tangent))
        }
    }
}
