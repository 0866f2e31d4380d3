//! The summary of the judgement of a built-in wall.

ghost use Rattle.std.specs.Prelude.{◌≡◌, ◌++◌, ◌∷◌, [], codes, length, IfOk, string_bytes};
ghost use Rattle.stack_certificate.specs.Certificate.{certificate_view};
ghost use Rattle.stack_contact.specs.FreeBlocks.{frees_of};
ghost use Rattle.stack_checker.specs.WrittenCheck.{written_check};
ghost use Rattle.stack_report.specs.ContactTable.{count_line};
ghost use Rattle.stack_report.specs.Summary.{form_word, greatest_line, narrow_line, counts_text, verdict_line};
ghost use Rattle.stack_report.specs.Summary.{summary_text};
ghost use Rattle.stack_report.specs.Tabling.{IsWhole};

use crate::forces::with_factor;
use stack_certificate::Certificate;
use stack_checker::Check;
use stack_contact::Survey;
use stack_whole::Decimal;
use std::alloc::{AllocError, Global};
use std::fmt::Write;

/// The text with the line of a count.
fn with_count(mut text: String, word: &str, count: usize) -> Result<String, AllocError>
    ensures { IfOk result (λ t. string_bytes t ≡ string_bytes text ++ count_line word.now count) }
{
    write!(text, "{word} {}\n", Decimal(count))?;
    Ok(text)
}

/// The number of a wall, and how many free blocks, bearings and touches its survey has.
fn counts(alloc: Global, number: u32, s: &Survey) -> Result<String, AllocError>
    ensures { IfOk result (λ t. string_bytes t ≡ counts_text number s.now) }
{
    let text = with_count(String::new(alloc), "sample", number as usize)?;
    let text = with_count(text, "blocks", s.free_count())?;
    let text = with_count(text, "bearings", s.bearings().len())?;
    with_count(text, "touches", s.touches().len())
}

/// The word for the form of a certificate.
fn form(c: &Certificate) -> &'static str
    ensures { result.now ≡ form_word (certificate_view c.now) }
{
    match c {
        Certificate::Stands(_) => "stands",
        Certificate::Collapses(_) => "collapses",
        Certificate::Greatest(..) => "greatest",
        Certificate::Unbounded(..) => "unbounded",
    }
}

/// The text with the line of the form.
fn with_verdict(mut text: String, c: &Certificate) -> Result<String, AllocError>
    ensures { IfOk result (λ t. string_bytes t ≡ string_bytes text ++ verdict_line (certificate_view c.now)) }
{
    let form = form(c);
    write!(text, "verdict {form}\n")?;
    Ok(text)
}

/// The text with the line of the greatest factor, if there is one.
fn with_greatest(text: String, s: &Survey, c: &Certificate) -> Result<String, AllocError>
    requires { IsWhole s.now (certificate_view c.now) }
    ensures { IfOk result (λ t. string_bytes t ≡ string_bytes text ++ greatest_line (certificate_view c.now)) }
{
    match c {
        Certificate::Greatest(forces, _) => with_factor(text, forces),
        _ => Ok(text),
    }
}

/// The text with the line that says whether no number is too wide for 64 bits.
fn with_width(mut text: String, narrow: bool) -> Result<String, AllocError>
    ensures { IfOk result (λ t. string_bytes t ≡ string_bytes text ++ narrow_line narrow) }
{
    let line = if narrow {
        "narrow yes\n"
    } else {
        "narrow no\n"
    };
    text.push_str(line)?;
    Ok(text)
}

/// The lines of a summary.
fn lines(
    alloc: Global,
    number: u32,
    s: &Survey,
    c: &Certificate,
    narrow: bool,
) -> Result<String, AllocError>
    requires { IsWhole s.now (certificate_view c.now) }
    ensures { IfOk result (λ t. string_bytes t ≡ summary_text number s.now (certificate_view c.now) narrow) }
{
    let text = with_verdict(counts(alloc, number, s)?, c)?;
    with_width(with_greatest(text, s, c)?, narrow)
}

/// The summary of the judgement of wall `number`, as text: the lines `sample NUMBER`, `blocks COUNT` of the free
/// blocks, `bearings COUNT`, `touches COUNT`, `verdict FORM` with the form of the certificate, which the check accepts;
/// `factor N/D` if that is the greatest, in lowest terms; and `narrow yes` or `narrow no`, as the caller says.
/// `AllocError` if memory ran out.
pub fn sample_summary(
    alloc: Global,
    number: u32,
    s: &Survey,
    c: &Certificate,
    narrow: bool,
) -> Result<Vec<u8>, AllocError>
    requires { written_check s.now (certificate_view c.now) ≡ Check.Accepted }
    ensures { IfOk result (λ t. t.items ≡ summary_text number s.now (certificate_view c.now) narrow) }
{
    Ok(lines(alloc, number, s, c, narrow)?.into_bytes())
}
