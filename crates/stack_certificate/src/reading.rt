//! Reading the text of a certificate.

ghost use Rattle.std.specs.Prelude.{◌≡◌, ◌<◌, ◌∷◌, length, IfOk};
ghost use Rattle.std.specs.Option.{option_map};
ghost use Rattle.stack_certificate.specs.CertificateOf.{step};
ghost use Rattle.stack_certificate.specs.FaultLine.{cut};
ghost use Rattle.stack_certificate.specs.CertificateRead.{ReadsCertificate, GivesCertificate};
ghost use Rattle.stack_certificate.specs.Stages.{stage_view};

use crate::line::parse_line;
use crate::split::split_once;
use crate::stage::{Stage, accept, finish};
use crate::types::{Certificate, TextError};
use std::alloc::{AllocError, Global};

/// The first line with its line feed, where it has one, and the rest.
pub fn cut_line(bytes: &[u8]) -> (&[u8], &[u8])
    requires { 0 < length bytes.now }
    ensures cut { cut bytes.now ≡ result.0.now ∷ cut result.1.now }
    ensures shorter { length result.1.now < length bytes.now }
{
    match split_once(bytes, b'\n') {
        Some((line, rest)) => (&bytes[..line.len() + 1], rest),
        None => (bytes, &[]),
    }
}

/// The stage after the line that the bytes are, if that line may come there.
fn advance(alloc: Global, stage: Stage, bytes: &[u8]) -> Result<Option<Stage>, AllocError>
    ensures { IfOk result (λ s. option_map stage_view s ≡ step (stage_view stage) bytes.now) }
{
    match parse_line(bytes) {
        Some(line) => accept(alloc, stage, line),
        None => Ok(None),
    }
}

/// The certificate whose text the bytes are. `Line` exactly if they are the text of no certificate, with the number of
/// the faulty line. Memory may run out at any time.
pub fn read_certificate(alloc: Global, text: &[u8]) -> Result<Certificate, TextError>
    ensures reads { ReadsCertificate result text.now }
    ensures gives { GivesCertificate result text.now }
{
    let mut stage = Stage::Start;
    let mut rest = text;
    let mut number = 1;
    while !rest.is_empty() {
        let (bytes, after) = cut_line(rest);
        match advance(alloc, stage, bytes)? {
            Some(next) => stage = next,
            None => return Err(TextError::Line { number }),
        }
        rest = after;
        number += 1;
    }
    match finish(stage) {
        Some(certificate) => Ok(certificate),
        None => Err(TextError::Line { number }),
    }
}
