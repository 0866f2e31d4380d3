//! Runs worked by hand, at each width.

use crate::problems::{
    DOUBLED, EMPTY, Numbers, POST, PRESSED, PULLED, PUSHED_POST, SLENDER, problem,
};
use stack_rational::{Exact, Frac};
use stack_simplex::{Ended, RunError, RunPlace, enough, run};
use stack_table::{Problem, Step, Table};
use std::alloc::Global;
use std::test::*;

/// What a run gives, without its table.
#[derive(Clone, Copy, PartialEq)]
enum Outcome {
    Infeasible,
    Feasible,
    Optimal,
    Ray(usize),
    Refused(RunError),
}

fn outcome_of<S: Exact>(found: &Result<Ended<S>, RunError>) -> Outcome {
    match found {
        Ok(Ended::Infeasible(_)) => Outcome::Infeasible,
        Ok(Ended::Feasible(_)) => Outcome::Feasible,
        Ok(Ended::Optimal(_)) => Outcome::Optimal,
        Ok(Ended::Ray { column, .. }) => Outcome::Ray(*column),
        Err(error) => Outcome::Refused(*error),
    }
}

/// The basic columns of a last table, and the numerators of their values.
fn rests_on<S: Exact>(t: &Table<S>, basic: &[usize], values: &[i128]) -> bool {
    if basic.len() != t.rows() {
        return false;
    }
    if values.len() != t.rows() {
        return false;
    }
    for i in 0..t.rows() {
        if t.basic(i) != basic[i] {
            return false;
        }
        if t.cell(i, t.columns()).parts().0 != values[i] {
            return false;
        }
    }
    true
}

fn last_rests_on<S: Exact>(
    found: &Result<Ended<S>, RunError>,
    basic: &[usize],
    values: &[i128],
) -> bool {
    match found {
        Ok(Ended::Infeasible(t)) => rests_on(t, basic, values),
        Ok(Ended::Feasible(t)) => rests_on(t, basic, values),
        Ok(Ended::Optimal(t)) => rests_on(t, basic, values),
        Ok(Ended::Ray { table, .. }) => rests_on(table, basic, values),
        Err(_) => false,
    }
}

/// The basic columns of a last table, and the numerators of their values.
type Rest = (&'static [usize], &'static [i128]);

/// A problem, how many pivots its run may make, what the run gives, and on what its last table rests, if that is looked
/// at.
#[derive(Clone, Copy)]
struct Case {
    numbers: Numbers,
    budget: u32,
    told: Outcome,
    last: Option<Rest>,
}

fn is_ended<S: Exact>(found: &Result<Ended<S>, RunError>, case: &Case) -> bool {
    outcome_of(found) == case.told
        && match case.last {
            Some((basic, values)) => last_rests_on(found, basic, values),
            None => true,
        }
}

/// Whether the run of a sound problem ends so.
fn ends_of<S: Exact>(alloc: Global, p: &Problem, case: &Case) -> bool {
    if case.budget == 0 {
        return false;
    }
    if !p.is_sound() {
        return false;
    }
    let Ok(t) = Table::<S>::build(alloc, p) else {
        return false;
    };
    let found = run(t, case.budget);
    is_ended(&found, case)
}

fn ends<S: Exact>(alloc: Global, case: &Case) -> bool {
    match problem(alloc, case.numbers) {
        Some(p) => ends_of::<S>(alloc, &p, case),
        None => false,
    }
}

/// How many end so, up to the first that doesn't.
fn held<S: Exact>(alloc: Global, cases: &[Case]) -> usize {
    for (k, case) in cases.iter().enumerate() {
        if !ends::<S>(alloc, case) {
            return k;
        }
    }
    cases.len()
}

const SPENT: Outcome = Outcome::Refused(RunError::Spent);

/// Two rows whose ratios are equal in pivot 2.
const DEAD: Numbers = Numbers {
    contact: &[&[0, 1], &[1, 1]],
    factor: None,
    right: &[1, 1],
};

/// The same with a factor that comes in and stays at 0.
const LIVE: Numbers = Numbers {
    contact: &[&[0, 1], &[1, 1]],
    factor: Some(&[-1, 0]),
    right: &[1, 1],
};

const TWO_ROWS: &[Case] = &[
    Case {
        numbers: DEAD,
        budget: 1,
        told: SPENT,
        last: None,
    },
    Case {
        numbers: DEAD,
        budget: 2,
        told: Outcome::Feasible,
        last: Some((&[2, 1], &[0, 1])),
    },
    Case {
        numbers: LIVE,
        budget: 3,
        told: SPENT,
        last: None,
    },
    Case {
        numbers: LIVE,
        budget: 4,
        told: Outcome::Optimal,
        last: Some((&[2, 1], &[0, 1])),
    },
];

/// After its first pivot a ratio is too wide for 8 bits.
const RATIO: Numbers = Numbers {
    contact: &[&[2, 1], &[1, 1]],
    factor: None,
    right: &[0, 100],
};

/// No column at all.
const BARE: Numbers = Numbers {
    contact: &[],
    factor: None,
    right: &[5],
};

/// Where the slender post is too wide for 8 bits.
const SLENDER_PLACE: RunPlace = RunPlace {
    phase: 1,
    pivot: 1,
    row: 3,
    column: 3,
    step: Step::Subtract,
};

/// Where the ratio is, which comes before the budget is looked at.
const RATIO_PLACE: RunPlace = RunPlace {
    phase: 1,
    pivot: 2,
    row: 1,
    column: 1,
    step: Step::Ratio,
};

/// A step that is too wide, a ratio that is too wide, and problems that nothing solves.
const AT_8: &[Case] = &[
    Case {
        numbers: SLENDER,
        budget: 9,
        told: Outcome::Refused(RunError::TooWide(SLENDER_PLACE)),
        last: None,
    },
    Case {
        numbers: RATIO,
        budget: 1,
        told: Outcome::Refused(RunError::TooWide(RATIO_PLACE)),
        last: None,
    },
    Case {
        numbers: PULLED,
        budget: 1,
        told: Outcome::Infeasible,
        last: Some((&[1], &[1])),
    },
    Case {
        numbers: BARE,
        budget: 1,
        told: Outcome::Infeasible,
        last: Some((&[0], &[5])),
    },
];

/// The post stands after four pivots, and bears twice its push after five; what is too wide for 8 bits isn't here; and
/// factors that no row limits.
const AT_64: &[Case] = &[
    Case {
        numbers: POST,
        budget: 3,
        told: SPENT,
        last: None,
    },
    Case {
        numbers: POST,
        budget: 4,
        told: Outcome::Feasible,
        last: Some((&[2, 1, 3], &[24, 24, 0])),
    },
    Case {
        numbers: PUSHED_POST,
        budget: 4,
        told: SPENT,
        last: None,
    },
    Case {
        numbers: PUSHED_POST,
        budget: 5,
        told: Outcome::Optimal,
        last: Some((&[2, 4, 3], &[18, 2, 30])),
    },
    Case {
        numbers: SLENDER,
        budget: 9,
        told: Outcome::Feasible,
        last: None,
    },
    Case {
        numbers: RATIO,
        budget: 1,
        told: SPENT,
        last: None,
    },
    Case {
        numbers: DOUBLED,
        budget: 1,
        told: Outcome::Ray(1),
        last: Some((&[0, 3], &[1, 0])),
    },
    Case {
        numbers: PRESSED,
        budget: 1,
        told: Outcome::Ray(1),
        last: Some((&[0], &[1])),
    },
];

/// The example of Beale (1955), its rows in whole numbers, with its objective as the factor: Dantzig's rule of the
/// most negative objective cell comes back to the same basic columns every six pivots.
const BEALE: Numbers = Numbers {
    contact: &[
        &[100, 0, 0, 0],
        &[0, 100, 0, 0],
        &[0, 0, 1, 0],
        &[25, 50, 0, -75],
        &[-6000, -9000, 0, 15000],
        &[-4, -2, 1, -2],
        &[900, 300, 0, 600],
    ],
    factor: Some(&[0, 0, 0, 100]),
    right: &[0, 0, 1, 0],
};

/// Beale's example, and no rows.
const AT_128: &[Case] = &[
    Case {
        numbers: BEALE,
        budget: 9,
        told: SPENT,
        last: None,
    },
    Case {
        numbers: BEALE,
        budget: 10,
        told: Outcome::Optimal,
        last: Some((&[7, 5, 3, 0], &[1, 1, 1, 3])),
    },
    Case {
        numbers: EMPTY,
        budget: 1,
        told: Outcome::Feasible,
        last: Some((&[], &[])),
    },
];

/// How many of the two rows and of these cases end so.
fn held_at<S: Exact>(alloc: Global, cases: &[Case]) -> [usize; 2] {
    [held::<S>(alloc, TWO_ROWS), held::<S>(alloc, cases)]
}

/// The two rows at each width, the posts, Beale's example and the other ends, and what is too wide at 8 bits, with its
/// place.
#[test]
fn one_body_holds_at_8_64_and_128_bits(rt: HostRuntime) {
    let alloc = rt.alloc();
    let found = [
        held_at::<Frac<i8>>(alloc, AT_8),
        held_at::<Frac<i64>>(alloc, AT_64),
        held_at::<Frac<i128>>(alloc, AT_128),
    ];
    assert!(rt; found == [[4, 4], [4, 8], [4, 3]]);
}

#[test]
fn a_budget_suffices_by_its_columns(rt: HostRuntime) {
    let budgets = [enough(7), enough(8), enough(30), enough(31)];
    assert!(rt; budgets == [Some(384), Some(768), Some(3221225472), None]);
}
