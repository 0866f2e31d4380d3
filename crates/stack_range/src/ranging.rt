//! The range of factors, by a judgement of each side.

ghost use Rattle.std.specs.Prelude.{◌≡◌, ◌≢◌, IfOk, MatchResult};
ghost use Rattle.stack_certificate.specs.Certificate.{certificate_view};
ghost use Rattle.stack_equilibrium.specs.declared.types.Question.TheVariants as questions;
ghost use Rattle.stack_equilibrium.specs.Truth.{IsOfQuestion};
ghost use Rattle.stack_range.specs.Ranged.{side_certificate, range_refusal, range_view};
ghost use Rattle.stack_range.specs.Ranged.{JudgesSide, IsSideJudged, AnswersBySides, IsRange};
ghost use Rattle.stack_range.specs.RangeText.{CanPrintRange};
ghost use Rattle.stack_range.specs.RangeJudgement.{JudgesRange};

use crate::laws::range_laws;
use crate::reversing::other_side;
use crate::types::{End, Range, RangeError, Side};
use stack_certificate::{Certificate, Motion};
use stack_contact::Survey;
use stack_equilibrium::{Question, proper};
use stack_judge::{JudgeError, judge};
use std::alloc::Global;

/// The judgement of one side: an end of the range, or that the dead loads fall.
#[derive(Drop)]
enum OneSide {
    Ends(End),
    Falls(Motion),
}

/// What a certificate of live loads says.
fn side_of(certificate: Certificate) -> OneSide
    requires { IsOfQuestion questions.Live (certificate_view certificate) }
    ensures { side_certificate result ≡ certificate_view certificate }
{
    match certificate {
        Certificate::Greatest(forces, motion) => OneSide::Ends(End::At(forces, motion)),
        Certificate::Unbounded(base, ray) => OneSide::Ends(End::Unlimited(base, ray)),
        Certificate::Collapses(motion) => OneSide::Falls(motion),
        Certificate::Stands(_) => unreachable!(),
    }
}

/// Why there is no range if a side isn't judged.
fn refused(error: JudgeError, side: Side) -> RangeError
    ensures { result ≡ range_refusal error side }
{
    match error {
        JudgeError::TooWide(place) => RangeError::TooWide { side, place },
        JudgeError::Spent { .. } => RangeError::Spent { side },
        JudgeError::NoLive => RangeError::NoLive,
        JudgeError::Memory => RangeError::Memory,
    }
}

/// Judges one side, by its own survey.
fn judge_side(alloc: Global, s: &Survey, side: Side, budget: u32) -> Result<OneSide, RangeError>
    requires { budget ≢ 0 }
    ensures judges { JudgesSide result side s.now budget }
    ensures judged { IfOk result (λ h. IsSideJudged s.now h) }
{
    proper(s);
    match judge(alloc, s, Question::Live, budget) {
        Ok(certificate) => Ok(side_of(certificate)),
        Err(error) => Err(refused(error, side)),
    }
}

/// The range by both sides, the greatest first.
fn by_sides(alloc: Global, s: &Survey, budget: u32) -> Result<Range, RangeError>
    requires { budget ≢ 0 }
    ensures by_sides { AnswersBySides result s.now budget }
    ensures exact { IfOk result (λ r. IsRange s.now (range_view r)) }
    ensures printable { IfOk result (λ r. CanPrintRange (range_view r)) }
{
    range_laws();
    let greatest = match judge_side(alloc, s, Side::Greatest, budget) {
        Ok(OneSide::Ends(end)) => end,
        Ok(OneSide::Falls(motion)) => return Ok(Range::Collapses(motion)),
        Err(error) => return Err(error),
    };
    let other = other_side(alloc, s)?;
    match judge_side(alloc, &other, Side::Least, budget) {
        Ok(OneSide::Ends(least)) => Ok(Range::Between { least, greatest }),
        Ok(OneSide::Falls(_)) => unreachable!(),
        Err(error) => Err(error),
    }
}

/// The range of the factors of the live loads that are carried, signs allowed: both ends, each with a true certificate
/// of its side, or a collapse of the dead loads. All numbers fit 128 bits. Each side is judged within the budget of
/// pivots; the least one by the survey of the reversed model.
///
/// Refused are, in this order: a model without a live load; the greatest side, then the least, if a number of its run
/// or of what is made of its end is more than 2^127 - 1 in size, or a pivot is due when the budget's are done. Memory
/// may run out at any time. After Livesley (1978).
pub fn range(alloc: Global, s: &Survey, budget: u32) -> Result<Range, RangeError>
    requires { budget ≢ 0 }
    ensures by_sides { AnswersBySides result s.now budget }
    ensures judges { JudgesRange result s.now budget }
    ensures exact { IfOk result (λ r. IsRange s.now (range_view r)) }
    ensures printable { IfOk result (λ r. CanPrintRange (range_view r)) }
{
    by_sides(alloc, s, budget)
}
