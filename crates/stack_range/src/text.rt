//! The range of factors as text.

ghost use Rattle.std.specs.Prelude.{◌≡◌, ◌++◌, IfOk, pos, neg_ℤ, string_bytes};
ghost use Rattle.stack_algebra.specs.IntegerOrder.{◌≺◌};
ghost use Rattle.stack_whole.specs.Whole.{IsFitting};
ghost use Rattle.stack_certificate.specs.Certificate.{certificate_view, forces_view};
ghost use Rattle.stack_range.specs.CarriedFactors.{range_end_certificate};
ghost use Rattle.stack_range.specs.Ranged.{between, end_view, range_view};
ghost use Rattle.stack_range.specs.RangeText.{end_factor, range_end_text, range_line, range_text};
ghost use Rattle.stack_range.specs.RangeText.{IsPrintable, AreEnds, CanPrintRange};

use crate::types::{End, Range, Side};
use stack_certificate::{Certificate, Forces, write_certificate};
use stack_report::{Ratio, lowest_terms};
use stack_whole::Whole;
use std::alloc::{AllocError, Global};
use std::fmt::Write;

/// The number with the other sign.
fn opposite(n: Whole) -> Whole
    requires { IsFitting n.value }
    ensures { result.value ≡ neg_ℤ n.value }
{
    Whole::of(-n.value)
}

/// The factor of an end, which is minus that of its forces on the least side.
fn factor_of(forces: &Forces, side: Side) -> Ratio
    requires factor { IsFitting (forces_view forces.now).factor }
    requires scale { IsFitting (forces_view forces.now).scale }
    requires positive { pos 0 ≺ (forces_view forces.now).scale }
    ensures { result ≡ end_factor side (forces_view forces.now) }
{
    let factor = Whole::of(forces.factor);
    match side {
        Side::Greatest => lowest_terms(factor, Whole::of(forces.scale)),
        Side::Least => lowest_terms(opposite(factor), Whole::of(forces.scale)),
    }
}

/// The text with the factor of an end.
fn with_end(mut text: String, end: &End, side: Side) -> Result<String, AllocError>
    requires { IsPrintable (end_view end.now) }
    ensures { IfOk result (λ t. string_bytes t ≡ string_bytes text ++ range_end_text side (end_view end.now)) }
{
    match end {
        End::At(forces, _) => {
            let factor = factor_of(forces, side);
            write!(text, "{factor}")?;
        }
        End::Unlimited(..) => text.push_str("unlimited")?,
    }
    Ok(text)
}

/// The first line of a range, with the factors of both ends.
fn line(alloc: Global, least: &End, greatest: &End) -> Result<String, AllocError>
    requires { AreEnds (end_view least.now) (end_view greatest.now) }
    ensures { IfOk result (λ t. string_bytes t ≡ range_line (end_view least.now) (end_view greatest.now)) }
{
    let text = String::from_str(alloc, "range ")?;
    let mut text = with_end(text, least, Side::Least)?;
    text.push_str(" ")?;
    let mut text = with_end(text, greatest, Side::Greatest)?;
    text.push_str("\n")?;
    Ok(text)
}

/// The certificate of an end.
fn certificate_of(end: End) -> Certificate
    ensures { certificate_view result ≡ range_end_certificate (end_view end) }
{
    match end {
        End::At(forces, motion) => Certificate::Greatest(forces, motion),
        End::Unlimited(base, ray) => Certificate::Unbounded(base, ray),
    }
}

/// The text of both ends.
fn ends(alloc: Global, least: End, greatest: End) -> Result<Vec<u8>, AllocError>
    requires { AreEnds (end_view least) (end_view greatest) }
    ensures { IfOk result (λ t. t.items ≡ range_text (between (end_view least) (end_view greatest))) }
{
    let mut text = line(alloc, &least, &greatest)?.into_bytes();
    let high = write_certificate(alloc, &certificate_of(greatest))?;
    let low = write_certificate(alloc, &certificate_of(least))?;
    text.extend_from_slice(high.as_slice())?;
    text.extend_from_slice(b"reversed\n")?;
    text.extend_from_slice(low.as_slice())?;
    Ok(text)
}

/// The text of a range: the line `range LEAST GREATEST`, each a factor in lowest terms or `unlimited`; the text of the
/// greatest side's certificate, the line `reversed`, and that of the least side's. For a collapse, its text alone.
/// `AllocError` if memory ran out.
pub fn write_range(alloc: Global, range: Range) -> Result<Vec<u8>, AllocError>
    requires { CanPrintRange (range_view range) }
    ensures { IfOk result (λ t. t.items ≡ range_text (range_view range)) }
{
    match range {
        Range::Between { least, greatest } => ends(alloc, least, greatest),
        Range::Collapses(motion) => write_certificate(alloc, &Certificate::Collapses(motion)),
    }
}
