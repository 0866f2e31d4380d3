//! The reach of one direction.

ghost use Rattle.std.specs.Prelude.{◌≡◌, ◌≢◌, IfOk, Ok, pos};
ghost use Rattle.stack_whole.specs.Whole.{IsFitting};
ghost use Rattle.stack_certificate.specs.Certificate.{forces_view, motion_view, certificate_view, greatest};
ghost use Rattle.stack_equilibrium.specs.declared.types.Question.TheVariants as questions;
ghost use Rattle.stack_judge.specs.Judged.{IsJudged};
ghost use Rattle.stack_pairs.specs.Directed.{directed_survey, ArePair, AreFactors};
ghost use Rattle.stack_yield.specs.declared.judging.DirectionStop.TheVariants as stops;
ghost use Rattle.stack_yield.specs.LessDead.{less_dead};
ghost use Rattle.stack_yield.specs.Outcomes.{bounded, certificate_outcome, direction_outcome};
ghost use Rattle.stack_yield.specs.Regions.{IsOutcome, AnswerFits, AnswerHolds};

use crate::types::{Reach, RegionPlace};
use stack_certificate::{Certificate, Forces, Motion};
use stack_contact::Survey;
use stack_directions::{Towards, point, survey_towards};
use stack_equilibrium::{Question, power, proper};
use stack_judge::{JudgeError, judge};
use stack_whole::Whole;
use std::alloc::{AllocError, Global};

/// Why a direction has no reach.
#[derive(Clone, Copy)]
pub enum DirectionStop {
    /// The first number that is more than 2^127 - 1 in size.
    TooWide(RegionPlace),
    /// A pivot is due when the budget's are done.
    Spent,
    /// Memory ran out.
    Memory,
}

impl From<AllocError> for DirectionStop {
    ghost from_gives = { λ _ e. e ≡ stops.Memory };

    fn from(_e: AllocError) -> DirectionStop {
        DirectionStop::Memory
    }
}

/// The outcome of a direction: a reach, or that the dead loads fall.
#[derive(Drop)]
pub enum DirectionAnswer {
    Reaches(Reach),
    Falls(Motion),
}

/// Minus the power of the dead loads on a motion of a certificate that was accepted.
fn dead_power(judged: &Survey, forces: &Forces, motion: &Motion) -> i128
    requires { IsJudged questions.Live judged.now (greatest (forces_view forces.now) (motion_view motion.now)) }
    ensures value { result ≡ less_dead judged.now (motion_view motion.now) }
    ensures fits { IsFitting result }
{
    match power(judged, motion, Question::Dead) {
        Ok(dead) => match (Whole { value: 0 }).difference(Whole { value: dead }) {
            Ok(less) => less.value,
            Err(_) => unreachable!(),
        },
        Err(_) => unreachable!(),
    }
}

/// The reach of a greatest factor.
fn bounded_reach(
    s: &Survey,
    judged: &Survey,
    towards_first: &Survey,
    towards_second: &Survey,
    t: Towards,
    forces: Forces,
    motion: Motion,
) -> Result<DirectionAnswer, DirectionStop>
    requires pair { ArePair s.now.structure t.i t.j }
    requires factors { AreFactors t.m t.n }
    requires towards { judged.now ≡ directed_survey s.now t.i t.j t.m t.n }
    requires first { towards_first.now ≡ directed_survey s.now t.i t.j (pos 1) (pos 0) }
    requires second { towards_second.now ≡ directed_survey s.now t.i t.j (pos 0) (pos 1) }
    requires judged { IsJudged questions.Live judged.now (greatest (forces_view forces) (motion_view motion)) }
    ensures outcome { IsOutcome result (bounded s.now t.i t.j t.m t.n (forces_view forces) (motion_view motion)) }
    ensures fits { IfOk result AnswerFits }
{
    let Ok(p) = power(towards_first, &motion, Question::Live) else {
        return Err(DirectionStop::TooWide(RegionPlace::First));
    };
    let Ok(q) = power(towards_second, &motion, Question::Live) else {
        return Err(DirectionStop::TooWide(RegionPlace::Second));
    };
    let r = dead_power(judged, &forces, &motion);
    let Some(at) = point(Whole::widened(t.m), Whole::widened(t.n), &forces) else {
        return Err(DirectionStop::TooWide(RegionPlace::Point));
    };
    Ok(DirectionAnswer::Reaches(Reach {
        m: t.m,
        n: t.n,
        certificate: Certificate::Greatest(forces, motion),
        point: Some(at),
        half: Some((p, q, r)),
    }))
}

/// What a certificate of a direction says.
fn certificate_answer(
    s: &Survey,
    judged: &Survey,
    towards_first: &Survey,
    towards_second: &Survey,
    t: Towards,
    certificate: Certificate,
) -> Result<DirectionAnswer, DirectionStop>
    requires pair { ArePair s.now.structure t.i t.j }
    requires factors { AreFactors t.m t.n }
    requires towards { judged.now ≡ directed_survey s.now t.i t.j t.m t.n }
    requires first { towards_first.now ≡ directed_survey s.now t.i t.j (pos 1) (pos 0) }
    requires second { towards_second.now ≡ directed_survey s.now t.i t.j (pos 0) (pos 1) }
    requires judged { IsJudged questions.Live judged.now (certificate_view certificate) }
    ensures outcome { IsOutcome result (certificate_outcome s.now t.i t.j t.m t.n (certificate_view certificate)) }
    ensures holds { IfOk result (λ r. AnswerHolds s.now t.i t.j r) }
{
    // a law of surveys, by which a collapse is one of the survey itself
    proper(s);
    match certificate {
        Certificate::Collapses(motion) => Ok(DirectionAnswer::Falls(motion)),
        Certificate::Greatest(forces, motion) => {
            bounded_reach(s, judged, towards_first, towards_second, t, forces, motion)
        }
        Certificate::Unbounded(base, ray) => Ok(DirectionAnswer::Reaches(Reach {
            m: t.m,
            n: t.n,
            certificate: Certificate::Unbounded(base, ray),
            point: None,
            half: None,
        })),
        Certificate::Stands(_) => unreachable!(),
    }
}

/// The reach of a direction.
pub fn judge_direction(
    alloc: Global,
    s: &Survey,
    towards_first: &Survey,
    towards_second: &Survey,
    t: Towards,
    budget: u32,
) -> Result<DirectionAnswer, DirectionStop>
    requires budget { budget ≢ 0 }
    requires pair { ArePair s.now.structure t.i t.j }
    requires factors { AreFactors t.m t.n }
    requires first { towards_first.now ≡ directed_survey s.now t.i t.j (pos 1) (pos 0) }
    requires second { towards_second.now ≡ directed_survey s.now t.i t.j (pos 0) (pos 1) }
    ensures outcome { IsOutcome result (direction_outcome s.now t.i t.j budget (t.m, t.n)) }
    ensures holds { IfOk result (λ r. AnswerHolds s.now t.i t.j r) }
{
    let judged = survey_towards(alloc, s, t)?;
    match judge(alloc, &judged, Question::Live, budget) {
        Ok(certificate) => certificate_answer(
            s,
            &judged,
            towards_first,
            towards_second,
            t,
            certificate,
        ),
        Err(JudgeError::TooWide(place)) => Err(DirectionStop::TooWide(RegionPlace::Judge(place))),
        Err(JudgeError::Spent { .. }) => Err(DirectionStop::Spent),
        Err(JudgeError::NoLive) => unreachable!(),
        Err(JudgeError::Memory) => Err(DirectionStop::Memory),
    }
}
