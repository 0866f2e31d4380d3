//! Structures whose judgement must come from the revised run. If that gives up too soon, the answer is the same, only
//! later.

use crate::drawings::surveyed;
use crate::revised::kind_of;
use stack_contact::Survey;
use stack_equilibrium::Question;
use stack_posing::pose;
use stack_revised::run_revised;
use stack_tableau::EndKind;
use std::alloc::Global;
use std::test::*;

/// The pieces of a model file.
type Pieces = &'static [&'static str];

/// A wall of ten bricks in four courses, of several sizes. Its answer has numbers of more than 64 bits.
const WALL: Pieces = &[
    "[[material]]\nname = 'stone'\nweight = 1\nfriction = [7, 10]\n",
    "[[block]]\nname = 'ground'\nmaterial = 'stone'\nfixed = true\n\
    corners = [[-99, -9], [99, -9], [99, 0], [-99, 0]]\n",
    "[[block]]\nname = 'b0'\nmaterial = 'stone'\ncorners = [[0, 0], [19, 0], [19, 8], [0, 8]]\n",
    "[[block]]\nname = 'b1'\nmaterial = 'stone'\ncorners = [[19, 0], [41, 0], [41, 8], [19, 8]]\n",
    "[[block]]\nname = 'b2'\nmaterial = 'stone'\ncorners = [[0, 8], [13, 8], [13, 15], [0, 15]]\n",
    "[[block]]\nname = 'b3'\nmaterial = 'stone'\ncorners = [[13, 8], [35, 8], [35, 15], [13, 15]]\n",
    "[[block]]\nname = 'b4'\nmaterial = 'stone'\ncorners = [[35, 8], [55, 8], [55, 15], [35, 15]]\n",
    "[[block]]\nname = 'b5'\nmaterial = 'stone'\ncorners = [[0, 15], [25, 15], [25, 26], [0, 26]]\n",
    "[[block]]\nname = 'b6'\nmaterial = 'stone'\ncorners = [[25, 15], [47, 15], [47, 26], [25, 26]]\n",
    "[[block]]\nname = 'b7'\nmaterial = 'stone'\ncorners = [[0, 26], [10, 26], [10, 33], [0, 33]]\n",
    "[[block]]\nname = 'b8'\nmaterial = 'stone'\ncorners = [[10, 26], [36, 26], [36, 33], [10, 33]]\n",
    "[[block]]\nname = 'b9'\nmaterial = 'stone'\ncorners = [[36, 26], [54, 26], [54, 33], [36, 33]]\n",
    "[[load]]\nblock = 'b7'\nkind = 'live'\nat = [0, 33]\nforce = [1, 0]\n",
];

/// A wall in four courses against a buttress of three stones. Its answer has numbers of more than 64 bits.
const BUTTRESS: Pieces = &[
    "[[material]]\nname = 'stone'\nweight = 1\nfriction = [577, 1000]\n",
    "[[block]]\nname = 'ground'\nmaterial = 'stone'\nfixed = true\n\
    corners = [[-1000, -10], [1000, -10], [1000, 0], [-1000, 0]]\n",
    "[[block]]\nname = 'w1'\nmaterial = 'stone'\ncorners = [[0, 0], [20, 0], [20, 10], [0, 10]]\n",
    "[[block]]\nname = 'w2'\nmaterial = 'stone'\ncorners = [[20, 0], [40, 0], [40, 10], [20, 10]]\n",
    "[[block]]\nname = 'w3'\nmaterial = 'stone'\ncorners = [[0, 10], [10, 10], [10, 20], [0, 20]]\n",
    "[[block]]\nname = 'w4'\nmaterial = 'stone'\ncorners = [[10, 10], [30, 10], [30, 20], [10, 20]]\n",
    "[[block]]\nname = 'w5'\nmaterial = 'stone'\ncorners = [[30, 10], [40, 10], [40, 20], [30, 20]]\n",
    "[[block]]\nname = 'w6'\nmaterial = 'stone'\ncorners = [[0, 20], [20, 20], [20, 30], [0, 30]]\n",
    "[[block]]\nname = 'w7'\nmaterial = 'stone'\ncorners = [[20, 20], [40, 20], [40, 30], [20, 30]]\n",
    "[[block]]\nname = 'w8'\nmaterial = 'stone'\ncorners = [[0, 30], [10, 30], [10, 40], [0, 40]]\n",
    "[[block]]\nname = 'w9'\nmaterial = 'stone'\ncorners = [[10, 30], [30, 30], [30, 40], [10, 40]]\n",
    "[[block]]\nname = 'w10'\nmaterial = 'stone'\ncorners = [[30, 30], [40, 30], [40, 40], [30, 40]]\n",
    "[[block]]\nname = 's1_1'\nmaterial = 'stone'\ncorners = [[40, 0], [60, 0], [60, 10], [40, 10]]\n",
    "[[block]]\nname = 's1_2'\nmaterial = 'stone'\ncorners = [[40, 10], [60, 10], [60, 20], [40, 20]]\n",
    "[[block]]\nname = 's2_1'\nmaterial = 'stone'\ncorners = [[60, 0], [80, 0], [80, 10], [60, 10]]\n",
    "[[load]]\nblock = 'w8'\nkind = 'live'\nat = [0, 40]\nforce = [1, 0]\n",
];

/// How the revised run of a question ends, if it does.
fn settled(alloc: Global, s: &Survey, q: Question) -> Option<EndKind> {
    match pose(alloc, s, q) {
        Ok(problem) => kind_of(run_revised(alloc, &problem, 20_000)).ok(),
        Err(_) => None,
    }
}

/// Whether the revised run settles that a structure stands, and the greatest factor of its live loads.
fn is_settled(alloc: Global, pieces: Pieces) -> bool {
    match surveyed(alloc, pieces) {
        Some(s) => {
            let dead = settled(alloc, &s, Question::Dead);
            let live = settled(alloc, &s, Question::Live);
            dead == Some(EndKind::Feasible) && live == Some(EndKind::Optimal)
        }
        None => false,
    }
}

#[test]
fn the_revised_run_settles_a_wall_and_a_buttress(rt: HostRuntime) {
    let alloc = rt.alloc();
    let found = [is_settled(alloc, WALL), is_settled(alloc, BUTTRESS)];
    assert!(rt; found == [true; 2]);
}
