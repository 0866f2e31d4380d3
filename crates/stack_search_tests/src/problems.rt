//! Problems by their numbers, and the ends of the runs of structures.

ghost use Rattle.std.specs.Prelude.{◌≢◌, IfSome};
ghost use Rattle.stack_extract.specs.Ends.{IsEndOfSurvey};

use stack_contact::Survey;
use stack_equilibrium::Question;
use stack_posing::pose;
use stack_rational::Exact;
use stack_simplex::{Ended, run};
use stack_table::{Column, Entry, Problem, Table};
use std::alloc::{AllocError, Global};

/// The contact columns, the factor column and the right sides of a problem.
#[derive(Clone, Copy)]
pub struct Numbers {
    pub contact: &'static [&'static [i128]],
    pub factor: Option<&'static [i128]>,
    pub right: &'static [i128],
}

/// A post 2 wide and 4 high.
pub const POST: Numbers = Numbers {
    contact: &[&[1, 1, 0], &[-1, 1, 0], &[1, 1, 2], &[-1, 1, 2]],
    factor: None,
    right: &[0, 48, 48],
};

/// The post with a push of one unit at its upper left corner, carried up to the factor 2.
pub const PUSHED_POST: Numbers = Numbers {
    contact: &[&[1, 1, 0], &[-1, 1, 0], &[1, 1, 2], &[-1, 1, 2]],
    factor: Some(&[6, 0, -24]),
    right: &[0, 48, 48],
};

/// A post that is too wide for 8 bits.
pub const SLENDER: Numbers = Numbers {
    contact: &[&[1, 50, 0], &[-1, 50, 0], &[1, 50, 50], &[-1, 50, 50]],
    factor: None,
    right: &[0, 24, 12],
};

/// A right side that no column makes.
pub const PULLED: Numbers = Numbers {
    contact: &[&[-1]],
    factor: None,
    right: &[1],
};

/// A factor that no row limits.
pub const PRESSED: Numbers = Numbers {
    contact: &[&[1]],
    factor: Some(&[-1]),
    right: &[1],
};

/// A row that phase 2 leaves as it is.
pub const DOUBLED: Numbers = Numbers {
    contact: &[&[1, 1]],
    factor: Some(&[]),
    right: &[1, 1],
};

/// No rows.
pub const EMPTY: Numbers = Numbers {
    contact: &[],
    factor: None,
    right: &[],
};

/// A column by its numbers, row by row.
fn column(alloc: Global, numbers: &[i128]) -> Result<Column, AllocError> {
    let mut entries: Vec<Entry> = Vec::new(alloc);
    for row in 0..numbers.len() {
        if numbers[row] != 0 {
            let entry = Entry {
                row,
                value: numbers[row],
            };
            entries.push(entry)?;
        }
    }
    Ok(Column { entries })
}

fn columns(alloc: Global, contact: &[&[i128]]) -> Result<Vec<Column>, AllocError> {
    let mut columns: Vec<Column> = Vec::new(alloc);
    for numbers in contact {
        columns.push(column(alloc, numbers)?)?;
    }
    Ok(columns)
}

/// The problem of these numbers, if there is memory for it.
pub fn problem(alloc: Global, numbers: Numbers) -> Option<Problem> {
    let right = numbers.right.to_vec(alloc).ok()?;
    let contact = columns(alloc, numbers.contact).ok()?;
    let factor = match numbers.factor {
        Some(numbers) => Some(column(alloc, numbers).ok()?),
        None => None,
    };
    Some(Problem {
        rows: right.len(),
        contact,
        factor,
        right,
    })
}

/// The end of the run of a survey's problem.
pub fn ended<S: Exact>(alloc: Global, s: &Survey, q: Question, budget: u32) -> Option<Ended<S>>
    requires { budget ≢ 0 }
    ensures { IfSome result (λ e. IsEndOfSurvey q s.now e) }
{
    let Ok(problem) = pose(alloc, s, q) else {
        return None;
    };
    match Table::<S>::build(alloc, &problem) {
        Ok(t) => match run(t, budget) {
            Ok(e) => Some(e),
            Err(_) => None,
        },
        Err(_) => None,
    }
}
