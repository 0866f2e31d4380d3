//! Writing the text of a certificate.

ghost use Rattle.std.specs.Prelude.{◌≡◌, ◌++◌, ◌∷◌, [], OnOk, IfOk};
ghost use Rattle.std.specs.Fmt.{signed_decimal};
ghost use Rattle.stack_certificate.specs.Certificate.{forces_view, motion_view, certificate_view};
ghost use Rattle.stack_certificate.specs.Lines.{form_text, two_text, three_text, body_text, line_text};
ghost use Rattle.stack_certificate.specs.CertificateText.{push_line, forces_lines, move_line, motion_lines, open_lines};
ghost use Rattle.stack_certificate.specs.CertificateText.{text_of, CertificateFits, IsCertificateText};

use crate::line::{CertificateForm, Line};
use crate::types::{Certificate, Forces, Motion};
use itoa::Buffer;
use std::alloc::{AllocError, Global};

/// Puts a number.
fn put_number(out: &mut Vec<u8>, number: i128) -> Result<(), AllocError>
    ensures { OnOk result (out.new.items ≡ out.old.items ++ signed_decimal number) }
{
    let mut buffer = Buffer::new();
    out.extend_from_slice(buffer.format(number).as_bytes())
}

/// Puts two numbers with one space between them.
fn put_two(out: &mut Vec<u8>, a: i128, b: i128) -> Result<(), AllocError>
    ensures { OnOk result (out.new.items ≡ out.old.items ++ two_text a b) }
{
    put_number(out, a)?;
    out.push(b' ')?;
    put_number(out, b)
}

/// Puts three numbers with one space between them.
fn put_three(out: &mut Vec<u8>, a: i128, b: i128, c: i128) -> Result<(), AllocError>
    ensures { OnOk result (out.new.items ≡ out.old.items ++ three_text a b c) }
{
    put_number(out, a)?;
    out.push(b' ')?;
    put_two(out, b, c)
}

/// The word of a form.
fn word_of(form: CertificateForm) -> &'static [u8]
    ensures { result.now ≡ form_text form }
{
    match form {
        CertificateForm::Stands => b"stands",
        CertificateForm::Collapses => b"collapses",
        CertificateForm::Greatest => b"greatest",
        CertificateForm::Unbounded => b"unbounded",
    }
}

/// Puts a line without its line feed.
fn put_body(out: &mut Vec<u8>, line: Line) -> Result<(), AllocError>
    ensures { OnOk result (out.new.items ≡ out.old.items ++ body_text line) }
{
    match line {
        Line::Form(form) => out.extend_from_slice(word_of(form)),
        Line::Forces { scale, factor } => {
            out.extend_from_slice(b"forces ")?;
            put_two(out, scale, factor)
        }
        Line::Push { a, b } => {
            out.extend_from_slice(b"push ")?;
            put_two(out, a, b)
        }
        Line::Motion => out.extend_from_slice(b"motion"),
        Line::Move { u, v, r } => {
            out.extend_from_slice(b"move ")?;
            put_three(out, u, v, r)
        }
        Line::End => out.extend_from_slice(b"end"),
    }
}

/// Puts a line.
fn put_line(out: &mut Vec<u8>, line: Line) -> Result<(), AllocError>
    ensures { OnOk result (out.new.items ≡ out.old.items ++ line_text line) }
{
    put_body(out, line)?;
    out.push(b'\n')?;
    Ok(())
}

/// Puts the line of a bearing's part.
fn put_part(out: &mut Vec<u8>, part: &(i128, i128)) -> Result<(), AllocError>
    ensures { OnOk result (out.new.items ≡ out.old.items ++ line_text (push_line part.now)) }
{
    let (a, b) = *part;
    put_line(out, Line::Push { a, b })
}

/// Puts the line of a free block's motion.
fn put_move(out: &mut Vec<u8>, velocity: &(i128, i128, i128)) -> Result<(), AllocError>
    ensures { OnOk result (out.new.items ≡ out.old.items ++ line_text (move_line velocity.now)) }
{
    let (u, v, r) = *velocity;
    put_line(out, Line::Move { u, v, r })
}

/// Puts the lines of forces.
fn put_forces(out: &mut Vec<u8>, forces: &Forces) -> Result<(), AllocError>
    ensures { OnOk result (out.new.items ≡ out.old.items ++ text_of (forces_lines (forces_view forces.now))) }
{
    put_line(
        out,
        Line::Forces {
            scale: forces.scale,
            factor: forces.factor,
        },
    )?;
    for part in &forces.parts {
        put_part(out, part)?;
    }
    Ok(())
}

/// Puts the lines of a motion.
fn put_motion(out: &mut Vec<u8>, motion: &Motion) -> Result<(), AllocError>
    ensures { OnOk result (out.new.items ≡ out.old.items ++ text_of (motion_lines (motion_view motion.now))) }
{
    put_line(out, Line::Motion)?;
    for velocity in &motion.moves {
        put_move(out, velocity)?;
    }
    Ok(())
}

/// Puts the form and the lists of a certificate.
fn put_lists(out: &mut Vec<u8>, c: &Certificate) -> Result<(), AllocError>
    ensures { OnOk result (out.new.items ≡ out.old.items ++ text_of (open_lines (certificate_view c.now))) }
{
    match c {
        Certificate::Stands(forces) => {
            put_line(out, Line::Form(CertificateForm::Stands))?;
            put_forces(out, forces)
        }
        Certificate::Collapses(motion) => {
            put_line(out, Line::Form(CertificateForm::Collapses))?;
            put_motion(out, motion)
        }
        Certificate::Greatest(forces, motion) => {
            put_line(out, Line::Form(CertificateForm::Greatest))?;
            put_forces(out, forces)?;
            put_motion(out, motion)
        }
        Certificate::Unbounded(forces, ray) => {
            put_line(out, Line::Form(CertificateForm::Unbounded))?;
            put_forces(out, forces)?;
            put_forces(out, ray)
        }
    }
}

/// The text of the certificate, each of whose numbers is at most `2^127 - 1` in size. `AllocError` if memory ran out.
pub fn write_certificate(alloc: Global, c: &Certificate) -> Result<Vec<u8>, AllocError>
    requires { CertificateFits (certificate_view c.now) }
    ensures { IfOk result (λ text. IsCertificateText (certificate_view c.now) text.items) }
{
    let mut out = Vec::new(alloc);
    put_lists(&mut out, c)?;
    put_line(&mut out, Line::End)?;
    Ok(out)
}
