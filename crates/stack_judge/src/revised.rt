//! The judgement by the revised simplex run.

ghost use Rattle.std.specs.Prelude.{◌≡◌, ◌≢◌, IfOk, IfSome};
ghost use Rattle.stack_certificate.specs.Certificate.{certificate_view};
ghost use Rattle.stack_equilibrium.specs.declared.types.Question.{Question};
ghost use Rattle.stack_extract.specs.Ends.{IsLastOf, IsLastOfSome};
ghost use Rattle.stack_revised.specs.Ended.{shape_of_last, flips_of_last, value_of_last};
ghost use Rattle.stack_judge.specs.Judgement.{LacksLive, Judges};
ghost use Rattle.stack_judge.specs.Judged.{IsJudged};
ghost use Rattle.stack_judge.specs.Certifying.{GivesChecked, stopped_answer};

use crate::certifying::certify_at;
use crate::types::{JudgeError, JudgePlace};
use stack_certificate::Certificate;
use stack_contact::Survey;
use stack_equilibrium::Question;
use stack_extract::pose;
use stack_revised::{Last, RevisedStop, run_revised};
use std::alloc::Global;

/// The certificate of an end of a survey's run over rows: as `certify_at`.
fn certify_last(alloc: Global, s: &Survey, last: &Last) -> Result<Certificate, JudgeError>
    requires { IsLastOfSome s.now (shape_of_last last.now) (flips_of_last last.now) (value_of_last last.now) }
    ensures gives { (q : Question) → IsLastOf q s.now (shape_of_last last.now) (flips_of_last last.now)
        (value_of_last last.now) → GivesChecked result q s.now (value_of_last last.now) }
    ensures judged { (q : Question) → IsLastOf q s.now (shape_of_last last.now) (flips_of_last last.now)
        (value_of_last last.now) → IfOk result (λ c. IsJudged q s.now (certificate_view c)) }
{
    certify_at(alloc, s, last.kind, last)
}

/// What a revised run that has no end says of the judgement; None if it isn't settled.
fn stopped(stop: RevisedStop, budget: u32) -> Option<Result<Certificate, JudgeError>>
    ensures { result ≡ stopped_answer stop budget }
{
    match stop {
        RevisedStop::TooWide(place) => Some(Err(JudgeError::TooWide(JudgePlace::Run(place)))),
        RevisedStop::Spent => Some(Err(JudgeError::Spent { budget })),
        RevisedStop::Unsettled => None,
        RevisedStop::Memory => Some(Err(JudgeError::Memory)),
    }
}

/// The judgement by the revised run; None if that doesn't settle it.
pub fn judge_revised(
    alloc: Global,
    s: &Survey,
    q: Question,
    budget: u32,
) -> Option<Result<Certificate, JudgeError>>
    requires some { budget ≢ 0 }
    requires live { ¬ (LacksLive q s.now) }
    ensures judges { IfSome result (λ r. Judges r q s.now budget) }
    ensures judged { IfSome result (λ r. IfOk r (λ c. IsJudged q s.now (certificate_view c))) }
{
    let problem = match pose(alloc, s, q) {
        Ok(problem) => problem,
        Err(_) => return Some(Err(JudgeError::Memory)),
    };
    match run_revised(alloc, &problem, budget) {
        Ok(last) => Some(certify_last(alloc, s, &last)),
        Err(stop) => stopped(stop, budget),
    }
}
