//! The outcome of stages, as text.

ghost use Rattle.std.specs.Prelude.{◌≡◌, ◌++◌, IfOk, length, string_bytes};
ghost use Rattle.stack_certificate.specs.Certificate.{motion_view, collapses};
ghost use Rattle.stack_certificate.specs.CertificateText.{CertificateFits};
ghost use Rattle.stack_stages.specs.Gives.{stages_view};
ghost use Rattle.stack_stages.specs.StagesText.{stands_line, stand_lines as lines_of_standing, stages_text};
ghost use Rattle.stack_stages.specs.StagesText.{CanPrintStages, falls_text as text_of_falling};

use crate::types::Stages;
use stack_certificate::{Certificate, Forces, Motion, write_certificate};
use stack_whole::Decimal;
use std::alloc::{AllocError, Global};
use std::fmt::Write;

/// The text with the line of a stage that stands.
fn with_standing(mut text: String, number: usize) -> Result<String, AllocError>
    ensures { IfOk result (λ t. string_bytes t ≡ string_bytes text ++ stands_line number) }
{
    write!(text, "stage {} stands\n", Decimal(number))?;
    Ok(text)
}

/// The lines of so many stages that stand.
fn stand_lines(alloc: Global, count: usize) -> Result<String, AllocError>
    ensures { IfOk result (λ t. string_bytes t ≡ lines_of_standing count) }
{
    let mut text = String::new(alloc);
    for k in 0..count {
        text = with_standing(text, k + 1)?;
    }
    Ok(text)
}

/// The text if so many stages stand and the next collapses.
fn falls_text(alloc: Global, before: &[Forces], motion: Motion) -> Result<Vec<u8>, AllocError>
    requires { CertificateFits (collapses (motion_view motion)) }
    ensures { IfOk result (λ t. t.items ≡ text_of_falling (length before.now) (motion_view motion)) }
{
    let count = before.len();
    let mut text = stand_lines(alloc, count)?;
    let next = Decimal(count + 1);
    write!(text, "stage {next} collapses\n")?;
    let mut bytes = text.into_bytes();
    let certificate = write_certificate(alloc, &Certificate::Collapses(motion))?;
    bytes.extend_from_slice(certificate.as_slice())?;
    Ok(bytes)
}

/// The text of the outcome of stages: the line `stage K stands` for each that stands, counted from 1; then the line
/// `all stand`, or the line `stage K collapses` and the text of the certificate of that stage. `AllocError` if memory
/// ran out.
pub fn write_stages(alloc: Global, found: Stages) -> Result<Vec<u8>, AllocError>
    requires { CanPrintStages (stages_view found) }
    ensures { IfOk result (λ t. t.items ≡ stages_text (stages_view found)) }
{
    match found {
        Stages::AllStand(forces) => {
            let mut text = stand_lines(alloc, forces.len())?;
            text.push_str("all stand\n")?;
            Ok(text.into_bytes())
        }
        Stages::Falls { before, motion } => falls_text(alloc, before.as_slice(), motion),
    }
}
