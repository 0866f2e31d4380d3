//! Small structures worked by hand: their loads, sums, openings, powers and columns.

use crate::drawings::{GROUND, POST, PUSH, STONE, surveyed};
use stack_certificate::{Forces, Motion};
use stack_contact::Survey;
use stack_equilibrium::{
    PowerWide, Question, SumWide, VelocityWide, Wrench, column, dead, live, opening, power, residue,
};
use std::alloc::Global;
use std::test::*;

fn wrench(fx: i128, fy: i128, m: i128) -> Wrench {
    Wrench { fx, fy, m }
}

/// The dead and the live loads of the only free block.
fn loads(alloc: Global, pieces: &[&str]) -> Option<(Wrench, Wrench)> {
    let s = surveyed(alloc, pieces)?;
    if s.free_count() == 1 {
        Some((dead(&s, 0), live(&s, 0)))
    } else {
        None
    }
}

const PUSHED: &[&str] = &[STONE, GROUND, POST, PUSH];

/// A sway to the right.
const RIGHT: &str = "version = 2\nsway = [1, 0]\n";

const SWAYED: &[&str] = &[RIGHT, STONE, GROUND, POST];

/// The post, pushed and with a steep sway.
const BOTH: &[&str] = &["version = 2\nsway = [1, -2]\n", STONE, GROUND, POST, PUSH];

/// A push acts where it stands, and a sway at the centroid, beside the live loads.
#[test]
fn pushes_and_sways_of_a_post_are_its_live_loads(rt: HostRuntime) {
    let alloc = rt.alloc();
    let found = [
        loads(alloc, PUSHED),
        loads(alloc, SWAYED),
        loads(alloc, BOTH),
    ];
    let dead = wrench(0, -48, -48);
    let wanted = [
        Some((dead, wrench(6, 0, -24))),
        Some((dead, wrench(48, 0, -96))),
        Some((dead, wrench(54, -96, -216))),
    ];
    assert!(rt; found == wanted);
}

/// A triangle above the ground.
const GABLE: &str =
    "[[block]]\nname = 'gable'\nmaterial = 'stone'\ncorners = [[1, 2], [7, 2], [3, 5]]\n";

const GABLE_SWAYED: &[&str] = &[RIGHT, STONE, GROUND, GABLE];

const GABLE_ASLANT: &[&str] = &["version = 2\nsway = [2, -1]\n", STONE, GROUND, GABLE];

/// The triangle weighs 9, and its centroid is 8/3 to the right of its first corner and 1 above it. The sway (1, 0) is 9
/// to the right there, which turns by -9*1. The sway (2, -1) is 18 to the right and 9 downwards, which turn by
/// -18*1 - 9*8/3 = -42. Six times each are the loads, and -6*9*8/3 = -144 is the moment of the weight.
#[test]
fn a_triangle_sways_by_all_three_parts_about_its_first_corner(rt: HostRuntime) {
    let alloc = rt.alloc();
    let found = [loads(alloc, GABLE_SWAYED), loads(alloc, GABLE_ASLANT)];
    let dead = wrench(0, -54, -144);
    let wanted = [
        Some((dead, wrench(54, 0, -54))),
        Some((dead, wrench(108, -54, -252))),
    ];
    assert!(rt; found == wanted);
}

fn first_residue(s: &Survey, forces: &Forces) -> Option<Result<Wrench, SumWide>> {
    if forces.parts.len() == s.bearings().len() && s.free_count() > 0 {
        Some(residue(s, forces, 0))
    } else {
        None
    }
}

/// The residue of a post under the parts of its bearings, at the factor 2 in whole numbers.
fn residue_over(
    alloc: Global,
    s: &Survey,
    parts: [(i128, i128); 2],
) -> Option<Result<Wrench, SumWide>> {
    let forces = Forces {
        scale: 1,
        factor: 2,
        parts: parts.to_vec(alloc).ok()?,
    };
    first_residue(s, &forces)
}

fn residue_under(alloc: Global, parts: [(i128, i128); 2]) -> Option<Result<Wrench, SumWide>> {
    let s = surveyed(alloc, PUSHED)?;
    residue_over(alloc, &s, parts)
}

#[test]
fn the_pushed_post_is_held_at_twice_the_push(rt: HostRuntime) {
    let alloc = rt.alloc();
    let found = [
        residue_under(alloc, [(0, 0), (48, -12)]),
        residue_under(alloc, [(0, 0), (49, -12)]),
    ];
    let wanted = [Some(Ok(wrench(0, 0, 0))), Some(Ok(wrench(0, 1, 2)))];
    assert!(rt; found == wanted);
}

/// How two bearings open in a motion, and the powers of the live and of the dead loads.
type Moved = (
    [Result<(i128, i128), VelocityWide>; 2],
    [Result<i128, PowerWide>; 2],
);

fn moved(s: &Survey, motion: &Motion) -> Option<Moved> {
    if motion.moves.len() != s.free_count() {
        return None;
    }
    if s.bearings().len() != 2 {
        return None;
    }
    let openings = [opening(s, motion, 0), opening(s, motion, 1)];
    let powers = [
        power(s, motion, Question::Live),
        power(s, motion, Question::Dead),
    ];
    Some((openings, powers))
}

fn moved_by(alloc: Global, s: &Survey, by: (i128, i128, i128)) -> Option<Moved> {
    let motion = Motion {
        moves: [by].to_vec(alloc).ok()?,
    };
    moved(s, &motion)
}

/// What this motion of its block does to the pushed post.
fn pushed_moves(alloc: Global, by: (i128, i128, i128)) -> Option<Moved> {
    let s = surveyed(alloc, PUSHED)?;
    moved_by(alloc, &s, by)
}

#[test]
fn the_pushed_post_tips_about_its_right_foot(rt: HostRuntime) {
    let wanted = ([Ok((2, 0)), Ok((0, 0))], [Ok(24), Ok(-48)]);
    assert!(rt; pushed_moves(rt.alloc(), (0, 2, -1)) == Some(wanted));
}

/// A flat block on the ground, and another on it.
const TWO: &[&str] = &[
    "[[material]]\nname = 'stone'\nweight = 1\nfriction = [1, 2]\n",
    GROUND,
    "[[block]]\nname = 'flat'\nmaterial = 'stone'\ncorners = [[0, 0], [2, 0], [2, 1], [0, 1]]\n",
    "[[block]]\nname = 'upper'\nmaterial = 'stone'\ncorners = [[0, 1], [2, 1], [2, 2], [0, 2]]\n",
];

fn columns_of(s: &Survey) -> Option<[Wrench; 3]> {
    if s.free_count() == 2 && s.bearings().len() == 4 {
        Some([
            column(s, 0, true, 1),
            column(s, 2, true, 1),
            column(s, 2, true, 0),
        ])
    } else {
        None
    }
}

/// Columns of the two blocks, which have four bearings.
fn columns(alloc: Global) -> Option<[Wrench; 3]> {
    let s = surveyed(alloc, TWO)?;
    columns_of(&s)
}

#[test]
fn a_bearing_acts_on_both_bodies_and_on_no_other(rt: HostRuntime) {
    let wanted = [wrench(0, 0, 0), wrench(1, 2, 0), wrench(-1, -2, 1)];
    assert!(rt; columns(rt.alloc()) == Some(wanted));
}
