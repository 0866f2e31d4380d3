//! Parts of small structures of stones, worked by hand.

use crate::drawings::{GROUND, SMOOTH, at, bearing, model_of};
use stack_contact::{Survey, Touch, survey};
use stack_frame::Cone;
use stack_model::{Load, Model};
use stack_part::{part, part_laws, survey_part};
use stack_polygon::Point;
use std::alloc::Global;
use std::test::*;

/// The ground, a post `a` on it, a post `b` on `a`, a post `c` beside `b` that touches `a`, and loads on `b` and on
/// `c`; a joint of stone on stone, and a sway.
const POSTS: &[&str] = &[
    "version = 2\nsway = [1, 0]\n",
    SMOOTH,
    "[[joint]]\nfirst = 'stone'\nsecond = 'stone'\nfriction = [2, 6]\n",
    GROUND,
    "[[block]]\nname = 'a'\nmaterial = 'stone'\ncorners = [[0, 0], [2, 0], [2, 4], [0, 4]]\n",
    "[[block]]\nname = 'b'\nmaterial = 'stone'\ncorners = [[0, 4], [2, 4], [2, 6], [0, 6]]\n",
    "[[block]]\nname = 'c'\nmaterial = 'stone'\ncorners = [[2, 4], [4, 4], [4, 6], [2, 6]]\n",
    "[[load]]\nblock = 'b'\nkind = 'dead'\nat = [1, 6]\nforce = [0, -1]\n",
    "[[load]]\nblock = 'c'\nkind = 'dead'\nat = [3, 6]\nforce = [0, -2]\n",
];

/// Version, sway, materials, joints and bodies, the name of the third body, and the only load.
type Told<'a> = (i64, (i64, i64), [usize; 3], &'a str, Load);

fn told(model: &Model) -> Option<Told<'_>> {
    if model.bodies() != 3 {
        return None;
    }
    if model.loads() != 1 {
        return None;
    }
    let counts = [model.materials(), model.joints(), model.bodies()];
    let (version, sway) = (model.version(), model.sway());
    Some((version, sway, counts, model.name(2), model.load(0)))
}

/// Whether the part without `b` has the kept bodies and the loads on them.
fn is_without_b(part: &Model) -> bool {
    let load = Load {
        body: 2,
        live: false,
        at: at(3, 6),
        fx: 0,
        fy: -2,
    };
    told(part) == Some((2, (1, 0), [1, 1, 3], "c", load))
}

/// The part with the bodies that are kept, given for each body whether it is.
fn kept(alloc: Global, whole: &Model, keeps: &[bool]) -> Option<Model> {
    if keeps.len() != whole.bodies() {
        return None;
    }
    part(alloc, whole, keeps).ok()
}

fn part_is_without_b(alloc: Global) -> Option<bool> {
    let whole = model_of(alloc, POSTS)?;
    let kept = kept(alloc, &whole, &[true, true, false, true])?;
    Some(is_without_b(&kept))
}

#[test]
fn a_part_has_the_kept_bodies_and_the_loads_on_them(rt: HostRuntime) {
    part_laws();
    assert!(rt; part_is_without_b(rt.alloc()) == Some(true));
}

/// Whether the only bearings are those of the first two bodies at these points, and these are the touches.
fn has(s: &Survey, feet: [Point; 2], touches: &[Touch]) -> bool {
    let third = Cone::new(1, 3);
    let bearings = [bearing(0, 1, feet[0], third), bearing(0, 1, feet[1], third)];
    s.bearings() == bearings.as_slice() && s.touches() == touches
}

/// Whether the survey of the part with the bodies that are kept has these feet and touches.
fn kept_has(
    alloc: Global,
    whole: &Survey,
    keeps: &[bool],
    feet: [Point; 2],
    touches: &[Touch],
) -> Option<bool> {
    if keeps.len() != whole.model().bodies() {
        return None;
    }
    let kept = survey_part(alloc, whole, keeps).ok()?;
    Some(has(&kept, feet, touches))
}

/// The part without `b`, and that of `a` and `b` alone.
fn have_their_contacts(alloc: Global, whole: &Survey) -> [Option<bool>; 2] {
    let touch = Touch {
        first: 1,
        second: 2,
        at: at(2, 4),
    };
    let feet = [at(0, 0), at(2, 0)];
    let top = [at(0, 4), at(2, 4)];
    [
        kept_has(alloc, whole, &[true, true, false, true], feet, &[touch]),
        kept_has(alloc, whole, &[false, true, true, false], top, &[]),
    ]
}

fn parts_have_their_contacts(alloc: Global) -> Option<[Option<bool>; 2]> {
    let whole = survey(alloc, model_of(alloc, POSTS)?).ok()?;
    Some(have_their_contacts(alloc, &whole))
}

#[test]
fn a_survey_of_a_part_has_the_contacts_between_kept_bodies(rt: HostRuntime) {
    let found = parts_have_their_contacts(rt.alloc());
    assert!(rt; found == Some([Some(true), Some(true)]));
}
