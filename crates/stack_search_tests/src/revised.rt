//! Runs worked by hand.

use crate::problems::{DOUBLED, EMPTY, Numbers, POST, PRESSED, PULLED, PUSHED_POST, problem};
use stack_revised::{Last, RevisedStop, run_revised};
use stack_run::RunPlace;
use stack_table::{Problem, Step};
use stack_tableau::EndKind;
use std::alloc::Global;
use std::test::*;

/// How a run ends, or why it has no end.
pub type Told = Result<EndKind, RevisedStop>;

/// How a run ends, without its table.
pub fn kind_of(found: Result<Last, RevisedStop>) -> Told {
    match found {
        Ok(last) => Ok(last.kind),
        Err(stop) => Err(stop),
    }
}

/// How the run of a sound problem ends.
fn told_of(alloc: Global, p: &Problem, budget: u32) -> Option<Told> {
    if budget == 0 {
        return None;
    }
    if !p.is_sound() {
        return None;
    }
    Some(kind_of(run_revised(alloc, p, budget)))
}

/// The example of Beale (1955), its rows in whole numbers, with its objective as the factor; one row is flipped.
const BEALE: Numbers = Numbers {
    contact: &[
        &[100, 0, 0, 0],
        &[0, 100, 0, 0],
        &[0, 0, -1, 0],
        &[25, 50, 0, -75],
        &[-6000, -9000, 0, 15000],
        &[-4, -2, -1, -2],
        &[900, 300, 0, 600],
    ],
    factor: Some(&[0, 0, 0, 100]),
    right: &[0, 0, -1, 0],
};

const GREAT: i128 = 1 << 62;

/// A number that doesn't fit 64 bits.
const WIDER: i128 = (1 << 80) + 1;

/// Right sides that don't fit 64 bits, of which the sum is needed.
const WIDE: Numbers = Numbers {
    contact: &[&[GREAT, 0], &[0, GREAT]],
    factor: None,
    right: &[WIDER, WIDER],
};

/// Two columns whose first pivot, at a number n in row 0, takes n - 1 times an nth part of a right side from row 1:
/// that doesn't fit.
const APART: Numbers = Numbers {
    contact: &[&[GREAT, GREAT - 1], &[GREAT - 1, GREAT]],
    factor: None,
    right: &[WIDER, WIDER],
};

/// Here it takes n - 1 times 1/n and n - 1 times 8: that fits, though the bound of the two rows doesn't.
const CLOSE: Numbers = Numbers {
    contact: &[&[GREAT, GREAT - 1], &[1, 1]],
    factor: None,
    right: &[8 * GREAT, 8 * GREAT - 8],
};

const LARGE: i128 = (1 << 63) - 1;

/// The sum of the first column doesn't fit 64 bits.
const SUMMED: Numbers = Numbers {
    contact: &[&[LARGE, LARGE - 1], &[1, 1]],
    factor: None,
    right: &[LARGE, LARGE - 1],
};

/// A problem, how many pivots its run may make, and how it ends.
#[derive(Clone, Copy)]
struct Case {
    numbers: Numbers,
    budget: u32,
    told: Told,
}

/// A post stands after four pivots, and is pushed for five.
const POSTS: &[Case] = &[
    Case {
        numbers: POST,
        budget: 3,
        told: Err(RevisedStop::Spent),
    },
    Case {
        numbers: POST,
        budget: 4,
        told: Ok(EndKind::Feasible),
    },
    Case {
        numbers: PUSHED_POST,
        budget: 4,
        told: Err(RevisedStop::Spent),
    },
    Case {
        numbers: PUSHED_POST,
        budget: 5,
        told: Ok(EndKind::Optimal),
    },
];

/// The other ends, and Beale's example.
const ENDS: &[Case] = &[
    Case {
        numbers: PULLED,
        budget: 1,
        told: Ok(EndKind::Infeasible),
    },
    Case {
        numbers: PRESSED,
        budget: 1,
        told: Ok(EndKind::Ray { column: 1 }),
    },
    Case {
        numbers: DOUBLED,
        budget: 1,
        told: Ok(EndKind::Ray { column: 1 }),
    },
    Case {
        numbers: EMPTY,
        budget: 1,
        told: Ok(EndKind::Feasible),
    },
    Case {
        numbers: BEALE,
        budget: 9,
        told: Err(RevisedStop::Spent),
    },
    Case {
        numbers: BEALE,
        budget: 10,
        told: Ok(EndKind::Optimal),
    },
];

/// Wide numbers are taken at 128 bits, a refused run has one place, a row whose bound doesn't fit goes on, and a table
/// with too great a sum is given up.
const WIDE_ENDS: &[Case] = &[
    Case {
        numbers: WIDE,
        budget: 2,
        told: Ok(EndKind::Feasible),
    },
    Case {
        numbers: APART,
        budget: 9,
        told: Err(RevisedStop::TooWide(RunPlace {
            phase: 1,
            pivot: 1,
            row: 1,
            column: 4,
            step: Step::Multiply,
        })),
    },
    Case {
        numbers: CLOSE,
        budget: 1,
        told: Err(RevisedStop::Spent),
    },
    Case {
        numbers: CLOSE,
        budget: 2,
        told: Ok(EndKind::Feasible),
    },
    Case {
        numbers: SUMMED,
        budget: 2,
        told: Err(RevisedStop::Unsettled),
    },
];

fn ends_so(alloc: Global, case: &Case) -> bool {
    match problem(alloc, case.numbers) {
        Some(p) => told_of(alloc, &p, case.budget) == Some(case.told),
        None => false,
    }
}

/// How many end so, up to the first that doesn't.
fn held(alloc: Global, cases: &[Case]) -> usize {
    for (k, case) in cases.iter().enumerate() {
        if !ends_so(alloc, case) {
            return k;
        }
    }
    cases.len()
}

/// A post, the other ends and Beale's example, and wide numbers as far as they fit.
#[test]
fn runs_end_as_worked_by_hand(rt: HostRuntime) {
    let alloc = rt.alloc();
    let found = [
        held(alloc, POSTS),
        held(alloc, ENDS),
        held(alloc, WIDE_ENDS),
    ];
    assert!(rt; found == [4, 6, 5]);
}
