//! The judgement.

ghost use Rattle.std.specs.Prelude.{◌≡◌, ◌≢◌, ◌↔◌, ℕ, ◌≤◌, Some, Err, IfOk, IsTrue};
ghost use Rattle.stack_certificate.specs.Certificate.{certificate_view};
ghost use Rattle.stack_run.specs.Enough.{enough_of};
ghost use Rattle.stack_judge.specs.declared.types.JudgeError.TheVariants as judge_error;
ghost use Rattle.stack_judge.specs.ProblemColumns.{problem_columns};
ghost use Rattle.stack_judge.specs.Judgement.{LacksLive, Judges};
ghost use Rattle.stack_judge.specs.Judged.{IsJudged};
ghost use Rattle.stack_judge.specs.Certifying.{IsTableOfSurvey, unjudged_as};
ghost use Rattle.stack_judge.specs.NarrowWork.{is_narrow, without_mark};

use crate::certifying::certify;
use crate::laws::columns_law;
use crate::narrow::judge_narrow;
use crate::revised::judge_revised;
use crate::types::{JudgeError, JudgePlace};
use stack_certificate::Certificate;
use stack_contact::Survey;
use stack_equilibrium::{Question, proper};
use stack_extract::pose;
use stack_rational::Frac;
use stack_run::budget_law;
use stack_simplex::{RunError, run};
use stack_table::{BuildError, Table};
use std::alloc::{AllocError, Global};

/// Whether the question is about live loads and none is listed.
fn lacks_live(s: &Survey, q: Question) -> bool
    ensures { IsTrue result ↔ LacksLive q s.now }
{
    match q {
        Question::Dead => false,
        Question::Live => !s.model().has_live(),
    }
}

/// The written table of a survey's problem. At 128 bits nothing of it is too wide.
fn table_of_survey(alloc: Global, s: &Survey, q: Question) -> Result<Table<Frac<i128>>, AllocError>
    ensures { IfOk result (λ t. IsTableOfSurvey q s.now t) }
{
    let problem = pose(alloc, s, q)?;
    match Table::build(alloc, &problem) {
        Ok(table) => Ok(table),
        Err(BuildError::Memory) => Err(AllocError),
        Err(BuildError::Wide { .. }) => unreachable!(),
    }
}

/// Why there is no judgement if a run has no end.
fn refused(error: RunError, budget: u32) -> JudgeError
    ensures { result ≡ unjudged_as error budget }
{
    match error {
        RunError::TooWide(place) => JudgeError::TooWide(JudgePlace::Run(place)),
        RunError::Spent => JudgeError::Spent { budget },
    }
}

/// The judgement by the run at 128 bits.
pub fn judge_broad(
    alloc: Global,
    s: &Survey,
    q: Question,
    budget: u32,
) -> Result<Certificate, JudgeError>
    requires some { budget ≢ 0 }
    requires live { ¬ (LacksLive q s.now) }
    ensures judges { Judges result q s.now budget }
    ensures judged { IfOk result (λ c. IsJudged q s.now (certificate_view c)) }
{
    let table = table_of_survey(alloc, s, q)?;
    match run(table, budget) {
        Ok(ended) => certify(alloc, s, &ended),
        Err(error) => Err(refused(error, budget)),
    }
}

/// The judgement by the run at 64 bits or, if a number is too wide there, at 128; and whether none is.
fn judge_by_width(
    alloc: Global,
    s: &Survey,
    q: Question,
    budget: u32,
) -> Result<(Certificate, bool), JudgeError>
    requires { budget ≢ 0 }
    ensures judges { Judges (without_mark result) q s.now budget }
    ensures narrow { IfOk result (λ r. r.1 ≡ is_narrow q s.now budget) }
    ensures judged { IfOk result (λ r. IsJudged q s.now (certificate_view r.0)) }
{
    if lacks_live(s, q) {
        return Err(JudgeError::NoLive);
    }
    match judge_narrow(alloc, s, q, budget) {
        Some(Ok(certificate)) => Ok((certificate, true)),
        Some(Err(error)) => Err(error),
        None => match judge_broad(alloc, s, q, budget) {
            Ok(certificate) => Ok((certificate, false)),
            Err(error) => Err(error),
        },
    }
}

/// Judges as `judge` does, with the same refusals, and says whether no number of the table or of the run is more than
/// 2^63 - 1 in size: then all of the run was done at 64 bits. Else its table is dropped, and the work done at 128.
pub fn judge_marked(
    alloc: Global,
    s: &Survey,
    q: Question,
    budget: u32,
) -> Result<(Certificate, bool), JudgeError>
    requires { budget ≢ 0 }
    ensures judges { Judges (without_mark result) q s.now budget }
    ensures narrow { IfOk result (λ r. r.1 ≡ is_narrow q s.now budget) }
    ensures judged { IfOk result (λ r. IsJudged q s.now (certificate_view r.0)) }
    ensures suffices { (b n : ℕ) → enough_of (problem_columns q s.now) ≡ Some b → b ≤ budget →
        without_mark result ≢ Err (judge_error.Spent n) }
{
    budget_law();
    columns_law();
    judge_by_width(alloc, s, q, budget)
}

/// The judgement by the revised run or, if that doesn't settle it, by the run at 128 bits.
fn judge_by_run(
    alloc: Global,
    s: &Survey,
    q: Question,
    budget: u32,
) -> Result<Certificate, JudgeError>
    requires { budget ≢ 0 }
    ensures judges { Judges result q s.now budget }
    ensures judged { IfOk result (λ c. IsJudged q s.now (certificate_view c)) }
{
    if lacks_live(s, q) {
        return Err(JudgeError::NoLive);
    }
    match judge_revised(alloc, s, q, budget) {
        Some(judged) => judged,
        None => judge_broad(alloc, s, q, budget),
    }
}

/// Judges the dead or the live loads of a survey: a true certificate of the question whose numbers all fit 128 bits
/// and which the check accepts, by the exact simplex run after Bland (1977) within a budget of pivots.
///
/// Refused are, in this order: a question about live loads if none is listed; the first number of the run, of the
/// numbers that are made of its end, or of the check that is more than 2^127 - 1 in size, with its place; a run in
/// which a pivot is due when the budget's are done, which can't happen if the budget is `enough` for the columns of the
/// survey's problem. Memory may run out at any time. After Livesley (1978).
pub fn judge(alloc: Global, s: &Survey, q: Question, budget: u32) -> Result<Certificate, JudgeError>
    requires { budget ≢ 0 }
    ensures judges { Judges result q s.now budget }
    ensures judged { IfOk result (λ c. IsJudged q s.now (certificate_view c)) }
    ensures suffices { (b n : ℕ) → enough_of (problem_columns q s.now) ≡ Some b → b ≤ budget →
        result ≢ Err (judge_error.Spent n) }
{
    budget_law();
    columns_law();
    judge_by_run(alloc, s, q, budget)
}
