//! Ends that were worked by hand, at each width.

ghost use Rattle.stack_extract.specs.Ends.{IsEndOfSome};

use crate::drawings::{GROUND, POST, PUSHED, STONE, surveyed};
use crate::problems::ended;
use stack_certificate::{Forces, Motion};
use stack_contact::Survey;
use stack_equilibrium::Question;
use stack_extract::{forces_of, motion_of, ray_of};
use stack_rational::{Exact, Frac};
use stack_simplex::Ended;
use std::alloc::Global;
use std::test::*;

/// A structure, the run of a question about it, and what its end gives: forces, of the end or of its ray, with this
/// scale, this factor and these parts, and a motion of one block. The scale of a ray is 0.
#[derive(Clone, Copy)]
struct Case {
    pieces: &'static [&'static str],
    question: Question,
    budget: u32,
    forces: Option<(i128, i128, &'static [(i128, i128)])>,
    motion: Option<(i128, i128, i128)>,
}

/// The forces of an end or of its ray.
fn forces<S: Exact>(alloc: Global, s: &Survey, e: &Ended<S>) -> Option<Forces>
    requires { IsEndOfSome s.now e.now }
{
    match e {
        Ended::Feasible(_) => forces_of(alloc, s, e).ok(),
        Ended::Optimal(_) => forces_of(alloc, s, e).ok(),
        Ended::Ray { .. } => ray_of(alloc, s, e).ok(),
        Ended::Infeasible(_) => None,
    }
}

fn motion<S: Exact>(alloc: Global, s: &Survey, e: &Ended<S>) -> Option<Motion>
    requires { IsEndOfSome s.now e.now }
{
    match e {
        Ended::Infeasible(_) => motion_of(alloc, s, e).ok(),
        Ended::Optimal(_) => motion_of(alloc, s, e).ok(),
        _ => None,
    }
}

fn are_forces(found: Option<Forces>, wanted: Option<(i128, i128, &[(i128, i128)])>) -> bool {
    match (found, wanted) {
        (Some(forces), Some((scale, factor, parts))) => {
            forces.scale == scale && forces.factor == factor && forces.parts.as_slice() == parts
        }
        (None, None) => true,
        _ => false,
    }
}

fn is_motion(found: Option<Motion>, wanted: Option<(i128, i128, i128)>) -> bool {
    match (found, wanted) {
        (Some(motion), Some(by)) => motion.moves.as_slice() == [by].as_slice(),
        (None, None) => true,
        _ => false,
    }
}

/// Whether the end gives these forces and this motion.
fn gives<S: Exact>(alloc: Global, s: &Survey, e: &Ended<S>, case: &Case) -> bool
    requires { IsEndOfSome s.now e.now }
{
    let are_forces = are_forces(forces(alloc, s, e), case.forces);
    let is_motion = is_motion(motion(alloc, s, e), case.motion);
    are_forces && is_motion
}

fn survey_holds<S: Exact>(alloc: Global, s: &Survey, case: &Case) -> bool {
    if case.budget == 0 {
        return false;
    }
    match ended::<S>(alloc, s, case.question, case.budget) {
        Some(e) => gives(alloc, s, &e, case),
        None => false,
    }
}

fn holds<S: Exact>(alloc: Global, case: &Case) -> bool {
    match surveyed(alloc, case.pieces) {
        Some(s) => survey_holds::<S>(alloc, &s, case),
        None => false,
    }
}

/// The post stands on both feet.
const STANDING: Case = Case {
    pieces: PUSHED,
    question: Question::Dead,
    budget: 4,
    forces: Some((1, 0, &[(24, -24), (24, 24)])),
    motion: None,
};

/// Pushed it tips about its right foot.
const TIPPING: Case = Case {
    pieces: PUSHED,
    question: Question::Live,
    budget: 100,
    forces: Some((1, 2, &[(0, 0), (48, -12)])),
    motion: Some((0, 2, -1)),
};

/// The post above low ground, with a dead load to the right. That makes the right side along x negative, so its row is
/// flipped; and the post goes the way of its loads.
const HOVERING: Case = Case {
    pieces: &[
        STONE,
        "[[block]]\nname = 'ground'\nmaterial = 'stone'\nfixed = true\n\
        corners = [[-10, -6], [10, -6], [10, -5], [-10, -5]]\n",
        POST,
        "[[load]]\nblock = 'post'\nkind = 'dead'\nat = [0, 4]\nforce = [1, 0]\n",
    ],
    question: Question::Dead,
    budget: 1,
    forces: None,
    motion: Some((1, -1, -1)),
};

/// The post, pressed down in the middle of its head: that is carried however great it is.
const PRESSED: Case = Case {
    pieces: &[
        STONE,
        GROUND,
        POST,
        "[[load]]\nblock = 'post'\nkind = 'live'\nat = [1, 4]\nforce = [0, -2]\n",
    ],
    question: Question::Live,
    budget: 100,
    forces: Some((0, 1, &[(6, -6), (6, 6)])),
    motion: None,
};

#[test]
fn a_post_stands_and_tips_hovering_it_goes_and_pressed_it_bears_any_factor(rt: HostRuntime) {
    let alloc = rt.alloc();
    let found = [
        holds::<Frac<i8>>(alloc, &STANDING),
        holds::<Frac<i64>>(alloc, &TIPPING),
        holds::<Frac<i64>>(alloc, &HOVERING),
        holds::<Frac<i128>>(alloc, &PRESSED),
    ];
    assert!(rt; found == [true; 4]);
}
