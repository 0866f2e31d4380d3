//! Each public call, with numbers worked by hand.

use stack_frame::{Cone, Frame, cone_of, frame_of};
use stack_whole::{Whole, Wide};
use std::test::*;

fn parts(frame: Frame) -> (i64, i64) {
    (frame.tx, frame.ty)
}

#[test]
fn a_direction_is_brought_to_lowest_terms_and_a_normal_stands_to_the_left(rt: HostRuntime) {
    let found = [
        parts(frame_of(6, -4)),
        parts(frame_of(-2000000, 0)),
        parts(frame_of(0, 7)),
        parts(frame_of(-12, -9)),
        frame_of(4, 3).normal(),
    ];
    assert!(rt; found == [(3, -2), (-1, 0), (0, 1), (-4, -3), (-3, 4)]);
}

fn terms(cone: Cone) -> (i64, i64) {
    (cone.p, cone.q)
}

#[test]
fn a_joint_has_the_lesser_friction_in_lowest_terms(rt: HostRuntime) {
    let found = [
        terms(cone_of(3, 4, 700, 1000)),
        terms(cone_of(6, 8, 1, 1)),
        terms(cone_of(1000, 1, 0, 1000)),
        terms(Cone::new(700, 1000)),
        terms(Cone::new(0, 9)),
    ];
    assert!(rt; found == [(7, 10), (3, 4), (0, 1), (7, 10), (0, 1)]);
}

fn admits(cone: Cone, a: i128, b: i128) -> Result<bool, Wide> {
    cone.admits(Whole::of(a), Whole::of(b))
}

#[test]
fn forces_within_the_cone_are_admitted_unless_a_product_is_too_wide(rt: HostRuntime) {
    let (steep, flat) = (Cone::new(3, 4), Cone::new(1, 2));
    let found = [
        admits(steep, 84, 63),
        admits(steep, 84, -63),
        admits(steep, 84, 64),
        admits(steep, -1, 0),
        admits(flat, i128::MAX, 0),
        admits(flat, 0, i128::MAX),
        admits(flat, 0, i128::MIN),
        admits(flat, -1, i128::MIN),
    ];
    let wanted = [
        Ok(true),
        Ok(true),
        Ok(false),
        Ok(false),
        Ok(true),
        Err(Wide),
        Err(Wide),
        Ok(false),
    ];
    assert!(rt; found == wanted);
}
