//! The judgement of a post that is pushed at its head, and of the greatest block, worked by hand.

ghost use Rattle.std.specs.Prelude.{◌≢◌};

use crate::drawings::{PUSHED, surveyed};
use crate::problems::ended;
use stack_certificate::Certificate;
use stack_contact::{Survey, survey};
use stack_equilibrium::Question;
use stack_judge::{JudgeError, judge, judge_marked};
use stack_overhang::wall;
use stack_rational::Frac;
use std::alloc::Global;
use std::test::*;

/// The form of a certificate.
fn form(certificate: &Certificate) -> &'static str {
    match certificate {
        Certificate::Stands(_) => "stands",
        Certificate::Collapses(_) => "collapses",
        Certificate::Greatest(..) => "greatest",
        Certificate::Unbounded(..) => "unbounded",
    }
}

/// The form of the certificate of a question, or why there is none.
fn judged(alloc: Global, s: &Survey, q: Question, budget: u32) -> Result<&'static str, JudgeError>
    requires { budget ≢ 0 }
{
    match judge(alloc, s, q, budget) {
        Ok(certificate) => Ok(form(&certificate)),
        Err(error) => Err(error),
    }
}

/// Whether the greatest factor is twice the push.
fn is_twice(certificate: &Certificate) -> bool {
    match certificate {
        Certificate::Greatest(forces, _) => {
            forces.scale > 0 && forces.scale < 1000 && forces.factor == 2 * forces.scale
        }
        _ => false,
    }
}

fn bears_twice(alloc: Global, s: &Survey) -> bool {
    match judge(alloc, s, Question::Live, 100) {
        Ok(certificate) => is_twice(&certificate),
        Err(_) => false,
    }
}

/// Whether the pushed post bears twice its push, is left open by three pivots, and stands by four.
fn judgements(alloc: Global, s: &Survey) -> [bool; 3] {
    let spent = JudgeError::Spent { budget: 3 };
    [
        bears_twice(alloc, s),
        judged(alloc, s, Question::Dead, 3) == Err(spent),
        judged(alloc, s, Question::Dead, 4) == Ok("stands"),
    ]
}

fn post_judgements(alloc: Global) -> Option<[bool; 3]> {
    let s = surveyed(alloc, PUSHED)?;
    Some(judgements(alloc, &s))
}

#[test]
fn a_post_bears_twice_its_push_and_stands_at_the_fourth_pivot(rt: HostRuntime) {
    assert!(rt; post_judgements(rt.alloc()) == Some([true; 3]));
}

/// The greatest and heaviest block, with nothing below it. Six times its weight is 24 million million million, too wide
/// for 64 bits.
const GREATEST: &[&str] = &[
    "[[material]]\nname = 'lead'\nweight = 1_000_000\nfriction = [1, 1]\n",
    "[[block]]\nname = 'greatest'\nmaterial = 'lead'\ncorners = [[-1_000_000, -1_000_000], \
    [1_000_000, -1_000_000], [1_000_000, 1_000_000], [-1_000_000, 1_000_000]]\n",
];

/// The mark of a judgement, if its certificate has this form.
fn mark(alloc: Global, s: &Survey, q: Question, wanted: &str) -> Option<bool> {
    match judge_marked(alloc, s, q, 20_000) {
        Ok((certificate, is_narrow)) => {
            if form(&certificate) == wanted {
                Some(is_narrow)
            } else {
                None
            }
        }
        Err(_) => None,
    }
}

/// Whether a plain run at 64 bits ends: that is what the mark says.
fn ends_at_64_bits(alloc: Global, s: &Survey) -> bool {
    ended::<Frac<i64>>(alloc, s, Question::Live, 20_000).is_some()
}

/// Whether that run of the pushed post ends, and its judgements have marks that say so.
fn post_is_narrow(alloc: Global, s: &Survey) -> bool {
    ends_at_64_bits(alloc, s)
        && mark(alloc, s, Question::Dead, "stands") == Some(true)
        && mark(alloc, s, Question::Live, "greatest") == Some(true)
}

fn post_mark(alloc: Global) -> Option<bool> {
    let s = surveyed(alloc, PUSHED)?;
    Some(post_is_narrow(alloc, &s))
}

fn block_mark(alloc: Global) -> Option<bool> {
    let s = surveyed(alloc, GREATEST)?;
    mark(alloc, &s, Question::Dead, "collapses")
}

#[test]
fn a_post_is_narrow_and_the_greatest_block_is_not(rt: HostRuntime) {
    let alloc = rt.alloc();
    let found = [post_mark(alloc), block_mark(alloc)];
    assert!(rt; found == [Some(true), Some(false)]);
}

/// The mark of a survey's greatest factor, and whether a plain run at 64 bits ends.
fn mark_and_end(alloc: Global, s: &Survey) -> (Option<bool>, bool) {
    (
        mark(alloc, s, Question::Live, "greatest"),
        ends_at_64_bits(alloc, s),
    )
}

/// The same of the first built-in wall.
fn wall_mark_and_end(alloc: Global) -> Option<(Option<bool>, bool)> {
    let model = wall(alloc, 0).ok()?;
    let s = survey(alloc, model).ok()?;
    Some(mark_and_end(alloc, &s))
}

#[test]
fn the_mark_of_the_first_wall_tells_that_a_plain_run_at_64_bits_ends(rt: HostRuntime) {
    assert!(rt; wall_mark_and_end(rt.alloc()) == Some((Some(true), true)));
}
