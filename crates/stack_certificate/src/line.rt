//! The lines of a certificate's text.

ghost use Rattle.std.specs.Prelude.{◌≡◌, ◌≢◌, IfSome, IfNone, ℤ};
ghost use Rattle.stack_certificate.specs.declared.line.CertificateForm.{CertificateForm};
ghost use Rattle.stack_certificate.specs.declared.line.Line.{Line};
ghost use Rattle.stack_certificate.specs.Lines.{form_text, IsTwo, IsThreeNumbers, IsBody, IsLine};

use crate::number::read_number;
use crate::split::{after, split_once};

/// The forms of a certificate.
#[derive(Clone, Copy)]
pub enum CertificateForm {
    Stands,
    Collapses,
    Greatest,
    Unbounded,
}

/// A line of a certificate's text.
#[derive(Clone, Copy)]
pub enum Line {
    Form(CertificateForm),
    Forces { scale: i128, factor: i128 },
    Push { a: i128, b: i128 },
    Motion,
    Move { u: i128, v: i128, r: i128 },
    End,
}

/// The two numbers that the bytes spell, with one space between them. None exactly if they spell no two numbers.
pub fn read_two(bytes: &[u8]) -> Option<(i128, i128)>
    ensures some { IfSome result (λ r. IsTwo r.0 r.1 bytes.now) }
    ensures none { IfNone result ((a b : ℤ) → ¬ IsTwo a b bytes.now) }
{
    let Some((first, second)) = split_once(bytes, b' ') else {
        return None;
    };
    let Some(a) = read_number(first) else {
        return None;
    };
    let Some(b) = read_number(second) else {
        return None;
    };
    Some((a, b))
}

/// The three numbers that the bytes spell, with one space between them.
fn read_three(bytes: &[u8]) -> Option<(i128, i128, i128)>
    ensures some { IfSome result (λ r. IsThreeNumbers r.0 r.1 r.2 bytes.now) }
    ensures none { IfNone result ((a b c : ℤ) → ¬ IsThreeNumbers a b c bytes.now) }
{
    let Some((first, rest)) = split_once(bytes, b' ') else {
        return None;
    };
    let Some(a) = read_number(first) else {
        return None;
    };
    let Some((b, c)) = read_two(rest) else {
        return None;
    };
    Some((a, b, c))
}

/// The form whose word the bytes are.
fn read_form(bytes: &[u8]) -> Option<CertificateForm>
    ensures some { IfSome result (λ form. bytes.now ≡ form_text form) }
    ensures none { IfNone result ((form : CertificateForm) → bytes.now ≢ form_text form) }
{
    if bytes == b"stands".as_slice() {
        return Some(CertificateForm::Stands);
    }
    if bytes == b"collapses".as_slice() {
        return Some(CertificateForm::Collapses);
    }
    if bytes == b"greatest".as_slice() {
        return Some(CertificateForm::Greatest);
    }
    if bytes == b"unbounded".as_slice() {
        return Some(CertificateForm::Unbounded);
    }
    None
}

/// The line that the bytes spell without its line feed.
fn read_body(bytes: &[u8]) -> Option<Line>
    ensures some { IfSome result (λ l. IsBody l bytes.now) }
    ensures none { IfNone result ((l : Line) → ¬ IsBody l bytes.now) }
{
    if let Some(form) = read_form(bytes) {
        return Some(Line::Form(form));
    }
    if bytes == b"motion".as_slice() {
        return Some(Line::Motion);
    }
    if bytes == b"end".as_slice() {
        return Some(Line::End);
    }
    if let Some(rest) = after(bytes, b"forces ") {
        return match read_two(rest) {
            Some((scale, factor)) => Some(Line::Forces { scale, factor }),
            None => None,
        };
    }
    if let Some(rest) = after(bytes, b"push ") {
        return match read_two(rest) {
            Some((a, b)) => Some(Line::Push { a, b }),
            None => None,
        };
    }
    if let Some(rest) = after(bytes, b"move ") {
        return match read_three(rest) {
            Some((u, v, r)) => Some(Line::Move { u, v, r }),
            None => None,
        };
    }
    None
}

/// The line that the bytes spell.
pub fn parse_line(bytes: &[u8]) -> Option<Line>
    ensures some { IfSome result (λ l. IsLine l bytes.now) }
    ensures none { IfNone result ((l : Line) → ¬ IsLine l bytes.now) }
{
    match bytes {
        [body @ .., b'\n'] => read_body(body),
        _ => None,
    }
}
