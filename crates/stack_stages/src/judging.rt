//! The stages of an order, judged one after the other.

ghost use Rattle.std.specs.Prelude.{◌≡◌, ◌≢◌, ◌≤◌, length, IfOk};
ghost use Rattle.stack_certificate.specs.Certificate.{certificate_view};
ghost use Rattle.stack_equilibrium.specs.Truth.{IsOfQuestion};
ghost use Rattle.stack_judge.specs.declared.types.JudgeError.TheVariants as judge_error;
ghost use Rattle.stack_judge.specs.Judgement.{judgement};
ghost use Rattle.stack_judge.specs.Judged.{IsJudged};
ghost use Rattle.stack_stages.specs.Stage.{surveyed_stage};
ghost use Rattle.stack_stages.specs.Staged.{staged, AreTrue, StandAndFall};
ghost use Rattle.stack_stages.specs.Gives.{stages_view, outcome_view, unjudged_at, GivesOutcome, GivesStages};
ghost use Rattle.stack_stages.specs.Gives.{RefusesFirstStage};
ghost use Rattle.stack_stages.specs.StagesText.{CanPrintStages};

use crate::stage::stage_of;
use crate::types::{Outcome, Stages, StagesError};
use stack_certificate::Certificate;
use stack_contact::Survey;
use stack_equilibrium::Question;
use stack_judge::{JudgeError, judge};
use std::alloc::Global;

/// The certificate of a question about dead loads.
fn outcome_of(certificate: Certificate) -> Outcome
    requires { IsOfQuestion Question.Dead (certificate_view certificate) }
    ensures { outcome_view result ≡ certificate_view certificate }
{
    match certificate {
        Certificate::Stands(forces) => Outcome::Stands(forces),
        Certificate::Collapses(motion) => Outcome::Collapses(motion),
        Certificate::Greatest(..) => unreachable!(),
        Certificate::Unbounded(..) => unreachable!(),
    }
}

/// Why stage `k` isn't judged. No live load is asked about.
fn unjudged(k: usize, error: JudgeError) -> StagesError
    requires { error ≢ judge_error.NoLive }
    ensures { result ≡ unjudged_at k error }
{
    match error {
        JudgeError::TooWide(place) => StagesError::TooWide { stage: k, place },
        JudgeError::Spent { .. } => StagesError::Spent { stage: k },
        JudgeError::NoLive => unreachable!(),
        JudgeError::Memory => StagesError::Memory,
    }
}

/// The judgement of stage `k`.
fn judge_stage(
    alloc: Global,
    s: &Survey,
    order: &[usize],
    k: usize,
    budget: u32,
) -> Result<Outcome, StagesError>
    requires within { k ≤ length order.now }
    requires some { budget ≢ 0 }
    ensures gives { GivesOutcome result k (judgement Question.Dead (surveyed_stage s.now order.now k) budget) }
    ensures judged { IfOk result (λ x. IsJudged Question.Dead (surveyed_stage s.now order.now k) (outcome_view x)) }
{
    let stage = stage_of(alloc, s, order, k)?;
    match judge(alloc, &stage, Question::Dead, budget) {
        Ok(certificate) => Ok(outcome_of(certificate)),
        Err(error) => Err(unjudged(k, error)),
    }
}

/// Judges the stages of an order, from `read_order`, one after the other, each within the budget of pivots: forces that
/// carry each of them, or those of the stages before the first that collapses, and the motion by which that does.
///
/// Refused is the first stage with a number of more than 2^127 - 1 in size, in its run, in what is made of its end or
/// in the check of that, or with a run in which a pivot is due when the budget's are done; all stages before it stand.
/// Memory may run out at any time. After Livesley (1978).
pub fn stages(
    alloc: Global,
    s: &Survey,
    order: &[usize],
    budget: u32,
) -> Result<Stages, StagesError>
    requires { budget ≢ 0 }
    ensures gives { GivesStages result (staged s.now order.now budget) }
    ensures refused { RefusesFirstStage result s.now order.now budget }
    ensures certified { IfOk result (λ r. AreTrue s.now order.now (stages_view r)) }
    ensures settled { IfOk result (λ r. StandAndFall s.now order.now (stages_view r)) }
    ensures printable { IfOk result (λ r. CanPrintStages (stages_view r)) }
{
    s.within();
    let mut before = Vec::new(alloc);
    for k in 0..order.len() {
        match judge_stage(alloc, s, order, k + 1, budget) {
            Ok(Outcome::Stands(forces)) => before.push(forces)?,
            Ok(Outcome::Collapses(motion)) => return Ok(Stages::Falls { before, motion }),
            Err(error) => return Err(error),
        }
    }
    Ok(Stages::AllStand(before))
}
