//! The judgement at 64 bits, if no number is too wide.

ghost use Rattle.std.specs.Prelude.{◌≡◌, ◌≢◌, IfOk, IfSome, None, is_some, true, false};
ghost use Rattle.stack_certificate.specs.Certificate.{certificate_view};
ghost use Rattle.stack_judge.specs.Judgement.{LacksLive, Judges};
ghost use Rattle.stack_judge.specs.Judged.{IsJudged};
ghost use Rattle.stack_judge.specs.Certifying.{IsTableOfSurvey};
ghost use Rattle.stack_judge.specs.NarrowWork.{narrow_place, has_no_place, is_narrow};

use crate::certifying::certify;
use crate::types::JudgeError;
use stack_certificate::Certificate;
use stack_contact::Survey;
use stack_equilibrium::Question;
use stack_extract::pose;
use stack_rational::Frac;
use stack_run::wider_run_law;
use stack_simplex::{RunError, run};
use stack_table::{BuildError, Table};
use std::alloc::{AllocError, Global};

/// The written table of a survey's problem at 64 bits, if nothing of it is too wide.
pub fn narrow_table(
    alloc: Global,
    s: &Survey,
    q: Question,
) -> Result<Option<Table<Frac<i64>>>, AllocError>
    ensures some { IfOk result (λ o. IfSome o (λ t. IsTableOfSurvey q s.now t)) }
    ensures place { IfOk result (λ o. is_some o ≡ has_no_place (narrow_place q s.now)) }
{
    let problem = pose(alloc, s, q)?;
    match Table::build(alloc, &problem) {
        Ok(table) => Ok(Some(table)),
        Err(BuildError::Memory) => Err(AllocError),
        Err(BuildError::Wide { .. }) => Ok(None),
    }
}

/// The judgement by a run at 64 bits; None exactly if a number of its table or of the run is too wide. A run there that
/// is nowhere too wide is the run at 128 bits.
pub fn judge_narrow(
    alloc: Global,
    s: &Survey,
    q: Question,
    budget: u32,
) -> Option<Result<Certificate, JudgeError>>
    requires some { budget ≢ 0 }
    requires live { ¬ (LacksLive q s.now) }
    ensures none { result ≡ None → is_narrow q s.now budget ≡ false }
    ensures judges { IfSome result (λ r. Judges r q s.now budget) }
    ensures narrow { IfSome result (λ r. IfOk r (λ c. is_narrow q s.now budget ≡ true)) }
    ensures judged { IfSome result (λ r. IfOk r (λ c. IsJudged q s.now (certificate_view c))) }
{
    wider_run_law();
    let table = match narrow_table(alloc, s, q) {
        Ok(Some(table)) => table,
        Ok(None) => return None,
        Err(_) => return Some(Err(JudgeError::Memory)),
    };
    match run(table, budget) {
        Ok(ended) => Some(certify(alloc, s, &ended)),
        Err(RunError::TooWide(_)) => None,
        Err(RunError::Spent) => Some(Err(JudgeError::Spent { budget })),
    }
}
