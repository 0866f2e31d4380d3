//! The words `check MODEL CERT` and `table MODEL CERT`.

ghost use Rattle.std.specs.Prelude.{◌≡◌};
ghost use Rattle.stack_outside.specs.Seen.{seen_shelf};
ghost use Rattle.stack_certificate.specs.Certificate.{certificate_view};
ghost use Rattle.stack_checker.specs.WrittenCheck.{written_check};
ghost use Rattle.stack_checker.specs.declared.types.Check.TheVariants.{Accepted};
ghost use Rattle.stack_work.specs.Checking.{check_step, certificate_due, checked, checked_file, certificate_work};
ghost use Rattle.stack_work.specs.Tables.{due_of};
ghost use Rattle.stack_work.specs.Progress.{Does, DoesAlone, AnswersDue};

use crate::forms::tabling::tables;
use crate::reading::read_file;
use crate::surveying::survey_file;
use stack_certificate::{Certificate, TextError};
use stack_checker::Check;
use stack_contact::Survey;
use stack_lines::{Answer, Input, Refusal, Verdict, Within, rejection, wide_place};
use stack_outside::Shelf;
use stack_work::Asked;
use std::alloc::Global;

/// The answer to what a check gives, or the refusal of a sum that is too wide.
fn check_answer(alloc: Global, survey: &Survey, check: Check) -> Result<Answer, Refusal>
    ensures { DoesAlone AnswersDue (check_step survey.now.structure check) result }
{
    match check {
        Check::Accepted => Ok(Answer {
            verdict: Verdict::Affirmed,
            text: Vec::from_slice(alloc, b"accepted\n")?,
        }),
        Check::Rejected(part, reason) => Ok(Answer {
            verdict: Verdict::Denied,
            text: rejection(alloc, survey, part, reason)?.into_bytes(),
        }),
        Check::TooWide(place) => Err(Refusal::WideCheck {
            within: Within::Whole,
            part: place.part,
            place: wide_place(alloc, survey, place.at)?,
        }),
    }
}

/// What is asked of an accepted certificate.
fn accepted_answer(
    alloc: Global,
    survey: &Survey,
    certificate: &Certificate,
    asked: Asked,
) -> Result<Answer, Refusal>
    requires { written_check survey.now (certificate_view certificate.now) ≡ Accepted }
    ensures { DoesAlone AnswersDue (due_of asked survey.now (certificate_view certificate.now)) result }
{
    match asked {
        Asked::Acceptance => check_answer(alloc, survey, Check::Accepted),
        Asked::Tables => tables(alloc, survey, certificate),
    }
}

/// The check of a certificate, and what is asked of it if it is accepted.
fn certificate_answer(
    alloc: Global,
    survey: &Survey,
    certificate: &Certificate,
    asked: Asked,
) -> Result<Answer, Refusal>
    ensures { DoesAlone AnswersDue (certificate_due (due_of asked) survey.now (certificate_view certificate.now)
        (written_check survey.now (certificate_view certificate.now))) result }
{
    match stack_checker::check(survey, certificate) {
        Check::Accepted => accepted_answer(alloc, survey, certificate, asked),
        Check::Rejected(part, reason) => check_answer(alloc, survey, Check::Rejected(part, reason)),
        Check::TooWide(place) => check_answer(alloc, survey, Check::TooWide(place)),
    }
}

/// The same of the certificate in a text.
fn certificate_text(
    alloc: Global,
    text: &[u8],
    survey: &Survey,
    asked: Asked,
) -> Result<Answer, Refusal>
    ensures { DoesAlone AnswersDue (checked (due_of asked) survey.now text.now) result }
{
    match stack_certificate::read_certificate(alloc, text) {
        Ok(certificate) => certificate_answer(alloc, survey, &certificate, asked),
        Err(TextError::Line { number }) => Err(Refusal::CertificateLine { number }),
        Err(TextError::Memory) => Err(Refusal::Memory),
    }
}

/// The same of the certificate in a file.
fn certificate_file<F: Shelf>(
    alloc: Global,
    shelf: &mut F,
    name: &str,
    survey: &Survey,
    asked: Asked,
) -> Result<Answer, Refusal>
    ensures { Does AnswersDue (checked_file (due_of asked) name.now survey.now)
        (seen_shelf F.Shelf shelf.old shelf.new) result }
{
    match read_file(shelf, name, Input::Certificate) {
        Ok(text) => certificate_text(alloc, text.as_slice(), survey, asked),
        Err(refusal) => Err(refusal),
    }
}

/// The words `check MODEL CERT` and `table MODEL CERT`.
pub fn certificate_form<F: Shelf>(
    alloc: Global,
    shelf: &mut F,
    model: &str,
    certificate: &str,
    asked: Asked,
) -> Result<Answer, Refusal>
    ensures { Does AnswersDue (certificate_work (due_of asked) model.now certificate.now)
        (seen_shelf F.Shelf shelf.old shelf.new) result }
{
    match survey_file(alloc, shelf, model) {
        Ok(survey) => certificate_file(alloc, shelf, certificate, &survey, asked),
        Err(refusal) => Err(refusal),
    }
}
