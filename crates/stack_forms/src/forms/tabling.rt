//! The tables of `table MODEL CERT`.

ghost use Rattle.std.specs.Prelude.{◌≡◌};
ghost use Rattle.stack_certificate.specs.Certificate.{certificate_view};
ghost use Rattle.stack_checker.specs.WrittenCheck.{written_check};
ghost use Rattle.stack_checker.specs.declared.types.Check.TheVariants.{Accepted};
ghost use Rattle.stack_work.specs.Tables.{table_due};
ghost use Rattle.stack_work.specs.Progress.{DoesAlone, AnswersDue};

use stack_certificate::Certificate;
use stack_contact::Survey;
use stack_lines::{Answer, Refusal, Verdict};
use stack_report::{ReportError, contact_table, force_table};
use std::alloc::Global;

/// The tables of an accepted certificate.
pub fn tables(alloc: Global, survey: &Survey, certificate: &Certificate) -> Result<Answer, Refusal>
    requires { written_check survey.now (certificate_view certificate.now) ≡ Accepted }
    ensures { DoesAlone AnswersDue (table_due survey.now (certificate_view certificate.now)) result }
{
    let mut text = contact_table(alloc, survey)?;
    match force_table(alloc, survey, certificate) {
        Ok(forces) => {
            text.extend_from_slice(forces.as_slice())?;
            Ok(Answer {
                verdict: Verdict::Affirmed,
                text,
            })
        }
        Err(ReportError::TooWide { index }) => Err(Refusal::WideTable { index }),
        Err(ReportError::Memory) => Err(Refusal::Memory),
    }
}
