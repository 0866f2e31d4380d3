//! Four blocks, two beside one another and two on them: orders of building, and their stages by hand.

use crate::drawings::{FOUR, surveyed};
use stack_contact::Survey;
use stack_orders::{OrderError, read_order};
use stack_stages::{StagesError, stage_of, stages, write_stages};
use std::alloc::{AllocError, Global};
use std::test::*;

/// Whether a text begins with these lines, and whether it ends there.
fn begins(text: Result<Vec<u8>, AllocError>, lines: &[u8]) -> (bool, bool) {
    match text {
        Ok(text) => (text.starts_with(lines), text.len() == lines.len()),
        Err(_) => (false, false),
    }
}

/// Whether the stages of the order that a text gives are written so.
fn told(
    alloc: Global,
    s: &Survey,
    text: &[u8],
    budget: u32,
    lines: &[u8],
) -> Option<Result<(bool, bool), StagesError>> {
    if budget == 0 {
        return None;
    }
    let order = read_order(alloc, s.model(), text).ok()?;
    match stages(alloc, s, order.as_slice(), budget) {
        Ok(found) => Some(Ok(begins(write_stages(alloc, found), lines))),
        Err(error) => Some(Err(error)),
    }
}

const ALL: &[u8] = b"stage 1 stands\nstage 2 stands\nstage 3 stands\nstage 4 stands\nall stand\n";

const SECOND: &[u8] = b"stage 1 stands\nstage 2 collapses\ncollapses\nmotion\n";

type Told = [Option<Result<(bool, bool), StagesError>>; 3];

fn told_of_three(alloc: Global, s: &Survey) -> Told {
    [
        told(alloc, s, b"a\nb\nc\nd\n", 100, ALL),
        told(alloc, s, b"a\nd\nb\n", 100, SECOND),
        told(alloc, s, b"a\nb\n", 1, b""),
    ]
}

fn stages_of_four(alloc: Global) -> Option<Told> {
    let s = surveyed(alloc, FOUR)?;
    Some(told_of_three(alloc, &s))
}

/// From below all stages stand, a block in the air falls, and a spent budget names its stage.
#[test]
fn stages_stand_from_below_and_a_block_in_the_air_falls(rt: HostRuntime) {
    let wanted = [
        Some(Ok((true, true))),
        Some(Ok((true, false))),
        Some(Err(StagesError::Spent { stage: 1 })),
    ];
    assert!(rt; stages_of_four(rt.alloc()) == Some(wanted));
}

/// Whether the first of three bodies after the ground is `a`, the bearings and the touches.
fn stage_told(s: &Survey) -> Option<(bool, usize, usize)> {
    let model = s.model();
    if model.bodies() == 3 {
        let is_a = model.name(1) == "a";
        Some((is_a, s.bearings().len(), s.touches().len()))
    } else {
        None
    }
}

type Order = ([usize; 2], Option<(bool, usize, usize)>);

/// The bodies that an order of two blocks names, and its stage with both.
fn two_of(alloc: Global, s: &Survey) -> Option<Order> {
    let Ok(order) = read_order(alloc, s.model(), b"d\na\n") else {
        return None;
    };
    if order.len() != 2 {
        return None;
    }
    let names = [order[0], order[1]];
    let told = match stage_of(alloc, s, order.as_slice(), 2) {
        Ok(stage) => stage_told(&stage),
        Err(_) => None,
    };
    Some((names, told))
}

fn order_of_two(alloc: Global) -> Option<Order> {
    let s = surveyed(alloc, FOUR)?;
    two_of(alloc, &s)
}

#[test]
fn an_order_names_blocks_by_their_numbers(rt: HostRuntime) {
    let wanted = ([4, 1], Some((true, 2, 1)));
    assert!(rt; order_of_two(rt.alloc()) == Some(wanted));
}

fn refusal(alloc: Global, s: &Survey, text: &[u8]) -> Option<OrderError> {
    read_order(alloc, s.model(), text).err()
}

fn refusals(alloc: Global) -> Option<[Option<OrderError>; 3]> {
    let s = surveyed(alloc, FOUR)?;
    Some([
        refusal(alloc, &s, b"a\na\n"),
        refusal(alloc, &s, b"ground\n"),
        refusal(alloc, &s, b"a"),
    ])
}

#[test]
fn faulty_lines_are_numbered(rt: HostRuntime) {
    let first = Some(OrderError::Line { number: 1 });
    let second = Some(OrderError::Line { number: 2 });
    assert!(rt; refusals(rt.alloc()) == Some([second, first, first]));
}
